//! Cases of `seq_base`: bytes, ids, modes, paths and names of refs.

use cases::{Answer, Case, CaseFault};
use seq_base::{
    Id, IdFault, Mode, Path, PathFault, RefNameFault, check_ref_name, is_ref_name, is_store_path,
};
use std::alloc::AllocError;
use std::cmp::Ordering;

fn put_order(out: &mut Answer, order: Ordering) -> Result<(), AllocError> {
    match order {
        Ordering::Less => out.word(b"less"),
        Ordering::Equal => out.word(b"equal"),
        Ordering::Greater => out.word(b"greater"),
    }
}

/// BYTES BYTES
pub fn bytes_order(case: &mut Case<'_>) -> Result<(), CaseFault> {
    let first = case.fields.owned()?;
    let second = case.fields.owned()?;
    put_order(&mut case.out, first.cmp(&second))?;
    Ok(())
}

/// DIGITS
pub fn id(case: &mut Case<'_>) -> Result<(), CaseFault> {
    match Id::from_hex(case.fields.bytes()?) {
        Ok(id) => case.out.id(id)?,
        Err(IdFault::Length { found }) => case.out.counted(b"length", found)?,
        Err(IdFault::Digit { at }) => case.out.counted(b"digit", at)?,
    }
    Ok(())
}

/// ID ID
pub fn id_order(case: &mut Case<'_>) -> Result<(), CaseFault> {
    let first = case.fields.id()?;
    let second = case.fields.id()?;
    put_order(&mut case.out, first.cmp(&second))?;
    Ok(())
}

/// TEXT
pub fn mode(case: &mut Case<'_>) -> Result<(), CaseFault> {
    match Mode::read(case.fields.bytes()?) {
        Some(mode) => case.out.number(u64::from(mode.number()))?,
        None => case.out.word(b"none")?,
    }
    Ok(())
}

/// BYTES
pub fn path(case: &mut Case<'_>) -> Result<(), CaseFault> {
    match Path::check(case.fields.bytes()?) {
        Ok(()) => case.out.word(b"ok")?,
        Err(PathFault::Empty) => case.out.word(b"empty")?,
        Err(PathFault::TooLong { length }) => case.out.counted(b"too-long", length)?,
        Err(PathFault::NotUtf8 { at }) => case.out.counted(b"not-utf8", at)?,
        Err(PathFault::BadPart { at }) => case.out.counted(b"bad-part", at)?,
        Err(PathFault::Memory) => return Err(CaseFault::Memory),
    }
    Ok(())
}

/// PATH PATH: their order, and the first one's bytes, copied.
pub fn path_order(case: &mut Case<'_>) -> Result<(), CaseFault> {
    let first = case.fields.path()?;
    let second = case.fields.path()?;
    put_order(&mut case.out, first.cmp(&second))?;
    case.out.bytes(first.clone()?.bytes())?;
    Ok(())
}

/// NAME: `ok`, or the first bad byte. `is_ref_name` and `check_ref_name` have to agree.
pub fn ref_name(case: &mut Case<'_>) -> Result<(), CaseFault> {
    let name = case.fields.bytes()?;
    match check_ref_name(name) {
        Ok(()) => case.out.word(b"ok")?,
        Err(RefNameFault::Bad { at }) => case.out.counted(b"bad", at)?,
    }
    case.out.yes_or_no(is_ref_name(name))?;
    Ok(())
}

/// PATH
pub fn store_path(case: &mut Case<'_>) -> Result<(), CaseFault> {
    let path = case.fields.bytes()?;
    case.out.yes_or_no(is_store_path(path))?;
    Ok(())
}
