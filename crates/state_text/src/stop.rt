//! What a stop writes, and what is removed at the end of a list.

ghost use Rattle.std.specs.Prelude.{◌≡◌, ◌++◌, ◌∷◌, [], filter, IfOk, OnOk};
ghost use Rattle.state_text.specs.Places.{in_step_path as path_of_in_step};
ghost use Rattle.state_text.specs.Stops.{end_writes as writes_of_end, goes_early as goes_early_by, has_file as has_file_by, is_listed as is_listed_by, is_path as is_path_by, is_stale as is_stale_by, last_paths as last_paths_of, put_all, remove_all, stop_writes as writes_of_stop};
ghost use Rattle.seq_base.specs.StorePaths.{IsStorePath};

use crate::place::state_path;
use crate::state_file::StateFile;
use crate::verb::Verb;
use seq_base::Bytes;
use seq_outside::Write;
use std::alloc::{AllocError, Global};

/// Where a file stands while an invocation runs.
pub fn in_step_path(verb: Verb) -> &'static [u8]
    ensures path { result.now ≡ path_of_in_step verb }
    ensures store_path { IsStorePath result.now }
{
    match verb {
        Verb::Rebase => b".git/rebase-merge/in-step",
        Verb::CherryPick | Verb::Revert => b".git/sequencer/in-step",
    }
}

#[tactic(auto, using(crate::proofs::StopLaws::path_test))]
fn is_path(a: &[u8], b: &[u8]) -> bool
    ensures { result ≡ is_path_by a.now b.now }
{
    a == b
}

fn has_file(files: &[(Bytes, Bytes)], path: &[u8]) -> bool
    ensures { result ≡ has_file_by files.now path.now }
{
    let mut rest = files;
    while let [(other, _), after @ ..] = rest {
        if is_path(path, other.as_slice()) {
            return true;
        }
        rest = after;
    }
    false
}

fn is_stale(verb: Verb, files: &[(Bytes, Bytes)], path: &[u8]) -> bool
    ensures { result ≡ is_stale_by verb files.now path.now }
{
    !has_file(files, path) && !is_path(path, in_step_path(verb))
}

fn put_of(alloc: Global, path: &[u8], bytes: &[u8]) -> Result<Write, AllocError>
    ensures { IfOk result (λ write. write ≡ Write.Put path.now bytes.now) }
{
    let path = Bytes::from_vec(Vec::from_slice(alloc, path)?);
    let bytes = Bytes::from_vec(Vec::from_slice(alloc, bytes)?);
    Ok(Write::Put { path, bytes })
}

fn remove_of(alloc: Global, path: &[u8]) -> Result<Write, AllocError>
    ensures { IfOk result (λ write. write ≡ Write.Remove path.now) }
{
    let path = Bytes::from_vec(Vec::from_slice(alloc, path)?);
    Ok(Write::Remove { path })
}

fn push_puts(
    alloc: Global,
    writes: &mut Vec<Write>,
    files: &[(Bytes, Bytes)],
) -> Result<(), AllocError>
    ensures { OnOk result (writes.new.items ≡ writes.old.items ++ put_all files.now) }
{
    let mut rest = files;
    while let [(path, bytes), after @ ..] = rest {
        writes.push(put_of(alloc, path.as_slice(), bytes.as_slice())?)?;
        rest = after;
    }
    Ok(())
}

fn push_stale(
    alloc: Global,
    writes: &mut Vec<Write>,
    verb: Verb,
    files: &[(Bytes, Bytes)],
    found: &[Bytes],
) -> Result<(), AllocError>
    ensures { OnOk result (writes.new.items ≡ writes.old.items ++ remove_all (filter (is_stale_by verb files.now) found.now)) }
{
    let mut rest = found;
    while let [path, after @ ..] = rest {
        if is_stale(verb, files, path.as_slice()) {
            writes.push(remove_of(alloc, path.as_slice())?)?;
        }
        rest = after;
    }
    Ok(())
}

/// What a stop writes: its files, whole; then the removals of those files that were found and that it has no longer; and the removal of
/// `in-step` last.
pub fn stop_writes(
    alloc: Global,
    verb: Verb,
    files: &[(Bytes, Bytes)],
    found: &[Bytes],
) -> Result<Vec<Write>, AllocError>
    ensures { IfOk result (λ writes. writes.items ≡ writes_of_stop verb files.now found.now) }
{
    let mut writes = Vec::new(alloc);
    push_puts(alloc, &mut writes, files)?;
    push_stale(alloc, &mut writes, verb, files, found)?;
    writes.push(remove_of(alloc, in_step_path(verb))?)?;
    Ok(writes)
}

/// Whether the path is one of two.
#[tactic(auto, using(crate::proofs::StopLaws::or_none))]
fn is_either(path: &[u8], one: &[u8], other: &[u8]) -> bool
    ensures { result ≡ is_listed_by (one.now ∷ other.now ∷ []) path.now }
{
    if is_path(path, one) {
        return true;
    }
    is_path(path, other)
}

#[tactic(auto, using(crate::proofs::StopLaws::or_none))]
fn is_head(path: &[u8]) -> bool
    ensures { result ≡ is_listed_by (last_paths_of Verb.CherryPick) path.now }
{
    is_path(path, b".git/sequencer/head")
}

/// Whether the file tells where a branch was.
fn is_last(verb: Verb, path: &[u8]) -> bool
    ensures { result ≡ is_listed_by (last_paths_of verb) path.now }
{
    match verb {
        Verb::Rebase => is_either(
            path,
            b".git/rebase-merge/orig-head",
            b".git/rebase-merge/head-name",
        ),
        Verb::CherryPick => is_head(path),
        Verb::Revert => is_head(path),
    }
}

fn goes_early(verb: Verb, path: &[u8]) -> bool
    ensures { result ≡ goes_early_by verb path.now }
{
    !is_last(verb, path) && !is_path(path, in_step_path(verb))
}

fn push_early(
    alloc: Global,
    writes: &mut Vec<Write>,
    verb: Verb,
    found: &[Bytes],
) -> Result<(), AllocError>
    ensures { OnOk result (writes.new.items ≡ writes.old.items ++ remove_all (filter (goes_early_by verb) found.now)) }
{
    let mut rest = found;
    while let [path, after @ ..] = rest {
        if goes_early(verb, path.as_slice()) {
            writes.push(remove_of(alloc, path.as_slice())?)?;
        }
        rest = after;
    }
    Ok(())
}

fn push_last(alloc: Global, writes: &mut Vec<Write>, verb: Verb) -> Result<(), AllocError>
    ensures { OnOk result (writes.new.items ≡ writes.old.items ++ remove_all (last_paths_of verb)) }
{
    match verb {
        Verb::Rebase => {
            writes.push(remove_of(alloc, state_path(Verb::Rebase, StateFile::OrigHead))?)?;
            writes.push(remove_of(alloc, state_path(Verb::Rebase, StateFile::HeadName))?)?;
        }
        Verb::CherryPick | Verb::Revert => {
            writes.push(remove_of(alloc, state_path(Verb::CherryPick, StateFile::Head))?)?;
        }
    }
    Ok(())
}

/// What the end of a list removes: all files that were found; of those that tell where the branch was `orig-head` and then `head-name`,
/// or `head`, behind all others; and `in-step` last.
pub fn end_writes(alloc: Global, verb: Verb, found: &[Bytes]) -> Result<Vec<Write>, AllocError>
    ensures { IfOk result (λ writes. writes.items ≡ writes_of_end verb found.now) }
{
    let mut writes = Vec::new(alloc);
    push_early(alloc, &mut writes, verb, found)?;
    push_last(alloc, &mut writes, verb)?;
    writes.push(remove_of(alloc, in_step_path(verb))?)?;
    Ok(writes)
}
