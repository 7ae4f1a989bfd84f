//! The packed refs.

ghost use Rattle.std.specs.Prelude.{◌≡◌, ◌∷◌, ◌++◌, [], IfOk};
ghost use Rattle.hex.specs.Hex.{encode_lower};
ghost use Rattle.seq_base.specs.Ids.{IsId};
ghost use Rattle.ref_text.specs.Packed.{ArePackedNames, IsPacked, packed_text as text_of_refs};

use seq_base::{Bytes, Id};
use std::alloc::{AllocError, Global};

fn put_line(out: &mut Vec<u8>, alloc: Global, name: &[u8], id: &Id) -> Result<(), AllocError>
    ensures text { IfOk result (λ _. out.new.items ≡ out.old.items ++ (encode_lower id.now ++ 32 ∷ name.now ++ 10 ∷ [])) }
    ensures id { IfOk result (λ _. IsId id.now) }
{
    let digits = id.hex(alloc)?;
    out.extend_from_slice(digits.as_slice())?;
    out.push(b' ')?;
    out.extend_from_slice(name)?;
    out.push(b'\n')?;
    Ok(())
}

/// The file of these refs: for each `<hex> SP <name> LF`, with digits in lower case (git-pack-refs(1)). Each has the name of a ref.
#[tactic(auto, using(crate::proofs::PackedTexts::written_spells))]
pub fn packed_text(alloc: Global, refs: &[(Bytes, Id)]) -> Result<Vec<u8>, AllocError>
    requires { ArePackedNames refs.now }
    ensures text { IfOk result (λ text. text.items ≡ text_of_refs refs.now) }
    ensures spells { IfOk result (λ text. IsPacked refs.now text.items) }
{
    let mut out = Vec::new(alloc);
    for (name, id) in refs {
        put_line(&mut out, alloc, name.as_slice(), id)?;
    }
    Ok(out)
}
