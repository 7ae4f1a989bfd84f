//! What the words of a rule say of the attribute `merge`.

ghost use Rattle.std.specs.Prelude.{◌≡◌, ◌==◌, IfOk, codes};
ghost use Rattle.std.specs.List.{list_any};
ghost use Rattle.std.specs.Str.{bytes_eq};
ghost use Rattle.attr_rules.specs.Attributes.{has_equals, is_set, if_merge, valued, own};

use crate::name::name_and_value;
use crate::rules::bytes_of;
use seq_base::Bytes;
use std::alloc::{AllocError, Global};

/// The attribute `merge` of a path.
#[derive(Clone, Debug, PartialEq, Eq, Drop)]
pub enum MergeAttr {
    Unspecified,
    Set,
    Unset,
    /// It has this value, the name of a driver.
    Named(Bytes),
}

fn has_equals(word: &[u8]) -> bool
    ensures { result ≡ has_equals word.now }
{
    word.iter().any(|b| *b == b'=')
}

/// Whether a word sets the attribute of that name.
pub fn is_set(word: &[u8]) -> bool
    ensures { result ≡ is_set word.now }
{
    let [first, ..] = word else { return false };
    *first != b'-' && *first != b'!' && !has_equals(word)
}

fn if_merge(attribute: MergeAttr, name: &[u8]) -> Option<MergeAttr>
    ensures { result ≡ if_merge attribute name.now }
{
    if name == b"merge".as_slice() {
        Some(attribute)
    } else {
        None
    }
}

fn valued(alloc: Global, word: &[u8]) -> Result<Option<MergeAttr>, AllocError>
    ensures { IfOk result (λ said. said ≡ valued word.now) }
{
    if !has_equals(word) {
        return Ok(if_merge(MergeAttr::Set, word));
    }
    let (name, value) = name_and_value(word);
    Ok(if_merge(MergeAttr::Named(bytes_of(alloc, value)?), name))
}

/// What a word says by itself: `merge`, `-merge`, `!merge` or `merge=VALUE`.
pub fn own(alloc: Global, word: &[u8]) -> Result<Option<MergeAttr>, AllocError>
    ensures { IfOk result (λ said. said ≡ own word.now) }
{
    let [first, name @ ..] = word else {
        return Ok(None)
    };
    if *first == b'-' {
        return Ok(if_merge(MergeAttr::Unset, name));
    }
    if *first == b'!' {
        return Ok(if_merge(MergeAttr::Unspecified, name));
    }
    valued(alloc, word)
}
