//! The objects whose ids begin with some digits.

ghost use Rattle.std.specs.Char.{to_ascii_lowercase};
ghost use Rattle.std.specs.List.{list_all};
ghost use Rattle.std.specs.Option.{option_to_list};
ghost use Rattle.std.specs.Prelude.{◌≡◌, ◌≤◌, ◌∷◌, ◌++◌, [], IfErr, IfOk, codes, drop, length, map, take, true};
ghost use Rattle.hex.specs.Hex.{is_hex_digit};
ghost use Rattle.seq_base.specs.StorePaths.{IsStorePath};
ghost use Rattle.seq_outside.specs.Seen.{Reads};
ghost use Rattle.objects.specs.Causes.{IsFaultOrMemory, object_cause};
ghost use Rattle.objects.specs.Prefixes.{AreIdsWith, IsIdAt, IsPrefix, ids_with, is_object_path};
ghost use Rattle.objects.specs.Prefixes.{begins_with as begins_with_of, ids_among as ids_among_of, is_prefix as is_prefix_of};

use crate::fault::ObjectFault;
use crate::place::path_of;
use seq_base::{Bytes, Id};
use seq_outside::Store;
use std::alloc::{AllocError, Global};

fn are_digits(digits: &[u8]) -> bool
    ensures { result ≡ list_all is_hex_digit digits.now }
{
    digits.iter().all(|b| b.is_ascii_hexdigit())
}

/// Whether these are four to forty hex digits, in either case.
pub fn is_prefix(digits: &[u8]) -> bool
    ensures { result ≡ is_prefix_of digits.now }
{
    4 <= digits.len() && digits.len() <= 40 && are_digits(digits)
}

/// The digits in the path of an object's file.
fn digits_in(alloc: Global, path: &[u8]) -> Result<Vec<u8>, AllocError>
    requires { length path.now ≡ 54 }
    ensures { IfOk result (λ digits. digits.items ≡ take 2 (drop 13 path.now) ++ drop 16 path.now) }
{
    let mut digits = Vec::from_slice(alloc, &path[13..15])?;
    digits.extend_from_slice(&path[16..])?;
    Ok(digits)
}

/// The id of the object whose file has the path.
fn id_of_path(alloc: Global, path: &[u8]) -> Result<Option<Id>, AllocError>
    ensures { IfOk result (IsIdAt path.now) }
{
    if path.len() != 54 {
        return Ok(None);
    }
    let digits = digits_in(alloc, path)?;
    let Ok(id) = Id::from_hex(&digits) else {
        return Ok(None);
    };
    if path_of(alloc, id)?.as_slice() == path {
        Ok(Some(id))
    } else {
        Ok(None)
    }
}

#[tactic(auto, unfolding(crate::specs::Prefixes::begins_with))]
fn begins_with(alloc: Global, digits: &[u8], id: Id) -> Result<bool, AllocError>
    ensures { IfOk result (λ begins. begins ≡ begins_with_of digits.now id) }
{
    let hex = id.hex(alloc)?;
    Ok(hex.starts_with(digits))
}

/// The id of the object whose file has the path, if it begins with the digits.
fn id_with(alloc: Global, digits: &[u8], path: &[u8]) -> Result<Option<Id>, AllocError>
    ensures { IfOk result (λ found. option_to_list found ≡ ids_among_of digits.now (path.now ∷ [])) }
{
    let Some(id) = id_of_path(alloc, path)? else {
        return Ok(None);
    };
    if begins_with(alloc, digits, id)? {
        Ok(Some(id))
    } else {
        Ok(None)
    }
}

fn ids_among(alloc: Global, digits: &[u8], paths: &[Bytes]) -> Result<Vec<Id>, AllocError>
    ensures { IfOk result (λ ids. ids.items ≡ ids_among_of digits.now paths.now) }
{
    let mut ids = Vec::new(alloc);
    let mut rest = paths;
    while let [path, after @ ..] = rest {
        if let Some(id) = id_with(alloc, digits, path.as_slice())? {
            ids.push(id)?;
        }
        rest = after;
    }
    Ok(ids)
}

fn lower(alloc: Global, digits: &[u8]) -> Result<Vec<u8>, AllocError>
    ensures { IfOk result (λ lower. lower.items ≡ map to_ascii_lowercase digits.now) }
{
    let mut lower = Vec::from_slice(alloc, digits)?;
    lower.as_mut_slice().make_ascii_lowercase();
    Ok(lower)
}

/// The folder of the objects whose ids begin with the first two digits.
fn folder_of(alloc: Global, digits: &[u8]) -> Result<Vec<u8>, AllocError>
    requires { 2 ≤ length digits.now }
    ensures { IfOk result (λ folder. folder.items ≡ codes ".git/objects/" ++ take 2 digits.now) }
{
    let mut folder = Vec::from_slice(alloc, b".git/objects/")?;
    folder.extend_from_slice(&digits[..2])?;
    Ok(folder)
}

/// The ids of all objects in the store that begin with the hex digits, in byte order (gitrevisions(7), "<sha1>"). Digits are
/// read in either case. An object is there where its file is; other files below the folder of objects are passed over. It fails
/// only where the store does, or for want of memory.
pub fn with_prefix<S: Store>(
    alloc: Global,
    store: &mut S,
    digits: &[u8],
) -> Result<Vec<Id>, ObjectFault>
    requires { IsPrefix digits.now }
    ensures ids { S.told → IfOk result (λ ids. ids.items ≡ ids_with (S.seen store.old).content digits.now) }

    // It follows from `ids`.
    ensures all { S.told → IfOk result (λ ids. AreIdsWith (S.seen store.old).content digits.now ids.items) }
    ensures err { IfErr result IsFaultOrMemory }
    ensures reads { Reads S.told object_cause result (S.seen store.old) (S.seen store.new) }
{
    let digits = lower(alloc, digits)?;
    let folder = folder_of(alloc, &digits)?;
    let paths = store.list(alloc, &folder)?;
    let ids = ids_among(alloc, &digits, &paths)?;
    Ok(ids)
}
