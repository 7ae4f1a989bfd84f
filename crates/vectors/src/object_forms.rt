//! Cases of `object_text`.

use crate::failure::{Failure, value};
use cases::{Answer, Case, CaseFault, kind_of, kind_word, put_commit};
use object_text::{
    TextFault, commit_text, object_header, object_text, parse_commit, parse_object, parse_tag,
    parse_tree, tree_text,
};
use seq_base::Id;
use sha1::Sha1;
use std::alloc::AllocError;

impl Failure for TextFault {
    fn tell(self, out: &mut Answer) -> Result<(), AllocError> {
        match self {
            TextFault::Bad { at } => out.counted(b"bad", at),
            TextFault::Parents { count } => out.counted(b"parents", count),
            TextFault::Memory => Err(AllocError),
        }
    }
}

/// KIND CONTENT: the object's text, and its id.
pub fn text(case: &mut Case<'_>) -> Result<(), CaseFault> {
    let kind = kind_of(case.fields.word()?)?;
    let text = object_text(case.alloc, kind, case.fields.bytes()?)?;
    case.out.bytes(&text)?;
    case.out.id(Id::from_bytes(Sha1::digest(&text)))?;
    Ok(())
}

/// KIND LENGTH
pub fn header(case: &mut Case<'_>) -> Result<(), CaseFault> {
    let kind = kind_of(case.fields.word()?)?;
    let length = case.fields.number()?;
    case.out
        .bytes(&object_header(case.alloc, kind, length as usize)?)?;
    Ok(())
}

/// TEXT: the kind and the content.
pub fn object(case: &mut Case<'_>) -> Result<(), CaseFault> {
    let parsed = parse_object(case.alloc, case.fields.bytes()?);
    let object = value(parsed, &mut case.out)?;
    case.out.word(kind_word(object.kind))?;
    case.out.bytes(object.bytes.as_slice())?;
    Ok(())
}

/// CONTENT: the entries.
pub fn tree(case: &mut Case<'_>) -> Result<(), CaseFault> {
    let parsed = parse_tree(case.alloc, case.fields.bytes()?);
    let entries = value(parsed, &mut case.out)?;
    case.out.counted(b"entries", entries.len() as u64)?;
    for entry in entries.iter() {
        case.out.mode(entry.mode)?;
        case.out.bytes(entry.name.as_slice())?;
        case.out.id(entry.id)?;
    }
    Ok(())
}

/// CONTENT: what is written of its entries.
pub fn tree_again(case: &mut Case<'_>) -> Result<(), CaseFault> {
    let parsed = parse_tree(case.alloc, case.fields.bytes()?);
    let entries = value(parsed, &mut case.out)?;
    case.out.bytes(&tree_text(case.alloc, &entries)?)?;
    Ok(())
}

/// CONTENT: the id of the object that the tag names.
pub fn tagged(case: &mut Case<'_>) -> Result<(), CaseFault> {
    let parsed = parse_tag(case.fields.bytes()?);
    let id = value(parsed, &mut case.out)?;
    case.out.id(id)?;
    Ok(())
}

/// CONTENT: the fields.
pub fn commit(case: &mut Case<'_>) -> Result<(), CaseFault> {
    let parsed = parse_commit(case.alloc, case.fields.bytes()?);
    let commit = value(parsed, &mut case.out)?;
    put_commit(&mut case.out, &commit)?;
    Ok(())
}

/// CONTENT: what is written of its fields.
pub fn commit_again(case: &mut Case<'_>) -> Result<(), CaseFault> {
    let parsed = parse_commit(case.alloc, case.fields.bytes()?);
    let commit = value(parsed, &mut case.out)?;
    case.out.bytes(&commit_text(case.alloc, &commit)?)?;
    Ok(())
}
