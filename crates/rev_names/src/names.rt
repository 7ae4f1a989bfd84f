//! The names that the base of a word may stand for.

ghost use Rattle.std.specs.Prelude.{◌≡◌, ◌∷◌, ◌++◌, [], IfOk};
ghost use Rattle.rev_names.specs.Bases.{label_name as label_name_of, names_of as names_of_base, plain as plain_of};

use seq_base::Bytes;
use std::alloc::{AllocError, Global};

/// A base, of which `@` is HEAD.
fn plain(base: &[u8]) -> &[u8]
    ensures { result.now ≡ plain_of base.now }
{
    if base == b"@".as_slice() {
        b"HEAD"
    } else {
        base
    }
}

fn name_with(alloc: Global, front: &[u8], base: &[u8], end: &[u8]) -> Result<Bytes, AllocError>
    ensures { IfOk result (λ name. name ≡ front.now ++ base.now ++ end.now) }
{
    let mut name = front.to_vec(alloc)?;
    name.extend_from_slice(base)?;
    name.extend_from_slice(end)?;
    Ok(Bytes::from_vec(name))
}

fn name_below(alloc: Global, folder: &[u8], base: &[u8]) -> Result<Bytes, AllocError>
    ensures { IfOk result (λ name. name ≡ folder.now ++ base.now) }
{
    let mut name = folder.to_vec(alloc)?;
    name.extend_from_slice(base)?;
    Ok(Bytes::from_vec(name))
}

/// The names that a base may stand for, in the order in which they are tried.
pub fn names_of(alloc: Global, base: &[u8]) -> Result<Vec<Bytes>, AllocError>
    ensures { IfOk result (λ names. names.items ≡ names_of_base (plain_of base.now)) }
{
    let base = plain(base);
    Ok(vec![in alloc;
        name_below(alloc, b"", base)?,
        name_below(alloc, b"refs/", base)?,
        name_below(alloc, b"refs/tags/", base)?,
        name_below(alloc, b"refs/heads/", base)?,
        name_below(alloc, b"refs/remotes/", base)?,
        name_with(alloc, b"refs/remotes/", base, b"/HEAD")?,
    ]?)
}

/// The name of a label.
pub fn label_name(alloc: Global, base: &[u8]) -> Result<Bytes, AllocError>
    ensures { IfOk result (λ name. name ≡ label_name_of base.now) }
{
    name_below(alloc, b"refs/rewritten/", base)
}
