//! The values of refs.

ghost use Rattle.std.specs.FinMap as map;
ghost use Rattle.std.specs.Prelude.{◌≡◌, IfOk, IsErrOf, [], unwrap_or};
ghost use Rattle.ref_store.specs.Values.{end_at as end_of, end_within, file_head as file_head_of, head_at, head_end as head_end_of, head_text, log_at, or_bad, packed_at, packed_value_at, settled as settled_of, value_at, value_by as value_by_of};
ghost use Rattle.ref_store.specs.declared.fault.RefFault.TheVariants.{BadLog, BadPacked};
ghost use Rattle.ref_text.specs.Faults.{GivesHead};
ghost use Rattle.ref_text.specs.Heads.{IsHeadValue};
ghost use Rattle.ref_text.specs.Packed.{ArePackedNames};
ghost use Rattle.ref_text.specs.ReadHeads.{file_of};
ghost use Rattle.ref_text.specs.ReadLines.{log_of, packed_of};
ghost use Rattle.ref_text.specs.Refs.{head_name, packed_value as packed_value_of};
ghost use Rattle.seq_base.specs.RefNames.{IsRefName};
ghost use Rattle.seq_outside.specs.Halts.{Gives, halt_cause};
ghost use Rattle.seq_outside.specs.Seen.{Reads};

use crate::fault::RefFault;
use crate::file::file_text;
use crate::place::{log_file, name_of, ref_file};
use ref_text::{
    Head, HeadFault, LineFault, LogLine, parse_head, parse_log, parse_loose, parse_packed,
};
use seq_base::{Bytes, Id};
use seq_outside::{Halt, Store};
use std::alloc::Global;

#[tactic(auto, unfolding(crate::specs::Values::head_text))]
fn head_in(alloc: Global, text: &[u8]) -> Result<Head, Halt<RefFault>>
    ensures gives { Gives (λ head. head) result (head_text text.now) }
    ensures value { IfOk result IsHeadValue }
    ensures no_fault { IsErrOf result Halt.Fault → ⊥ }
{
    match parse_head(alloc, text) {
        Ok(head) => Ok(head),
        Err(HeadFault::Bad) => Err(Halt::Stops(RefFault::BadHead)),
        Err(HeadFault::Memory) => Err(Halt::Memory),
    }
}

/// What HEAD is: a branch that is checked out, or a commit. BadHead where its file is missing, or is none (gitrepository-layout(5), "HEAD").
#[tactic(auto, unfolding(crate::specs::Values::head_at))]
pub fn head<S: Store>(alloc: Global, store: &mut S) -> Result<Head, Halt<RefFault>>
    ensures gives { S.told → Gives (λ head. head) result (head_at (S.seen store.old).content) }
    ensures value { IfOk result IsHeadValue }
    ensures reads { Reads S.told halt_cause result (S.seen store.old) (S.seen store.new) }
{
    let path = ref_file(alloc, b"HEAD")?;
    match store.get(alloc, &path)? {
        Some(text) => head_in(alloc, &text),
        None => Err(Halt::Stops(RefFault::BadHead)),
    }
}

#[tactic(auto, unfolding(crate::specs::Values::packed_at))]
fn packed_in(alloc: Global, text: &[u8]) -> Result<Vec<(Bytes, Id)>, Halt<RefFault>>
    ensures gives { Gives (λ refs. refs.items) result (or_bad BadPacked (packed_of text.now)) }
    ensures names { IfOk result (λ refs. ArePackedNames refs.items) }
    ensures no_fault { IsErrOf result Halt.Fault → ⊥ }
{
    match parse_packed(alloc, text) {
        Ok(refs) => Ok(refs),
        Err(LineFault::Bad { line }) => Err(Halt::Stops(RefFault::BadPacked { line })),
        Err(LineFault::Memory) => Err(Halt::Memory),
    }
}

/// The packed refs, in the order of their lines, of which a missing file has none (git-pack-refs(1)). BadPacked with its first bad line.
#[tactic(auto, unfolding(crate::specs::Values::packed_at))]
pub fn packed_refs<S: Store>(
    alloc: Global,
    store: &mut S,
) -> Result<Vec<(Bytes, Id)>, Halt<RefFault>>
    ensures gives { S.told → Gives (λ refs. refs.items) result (packed_at (S.seen store.old).content) }
    ensures names { IfOk result (λ refs. ArePackedNames refs.items) }
    ensures reads { Reads S.told halt_cause result (S.seen store.old) (S.seen store.new) }
{
    let text = file_text(alloc, store, b".git/packed-refs")?;
    packed_in(alloc, &text)
}

/// The value of the first line of a name.
fn value_in(refs: &[(Bytes, Id)], name: &[u8]) -> Option<Id>
    ensures { result ≡ packed_value_of refs.now name.now }
{
    let mut rest = refs;
    while let [(found, id), after @ ..] = rest {
        if found.as_slice() == name {
            return Some(*id);
        }
        rest = after;
    }
    None
}

#[tactic(auto, unfolding(crate::specs::Values::packed_value_at))]
fn packed_value<S: Store>(
    alloc: Global,
    store: &mut S,
    name: &[u8],
) -> Result<Option<Id>, Halt<RefFault>>
    ensures gives { S.told → Gives (λ id. id) result (packed_value_at (S.seen store.old).content name.now) }
    ensures reads { Reads S.told halt_cause result (S.seen store.old) (S.seen store.new) }
{
    let refs = packed_refs(alloc, store)?;
    Ok(value_in(&refs, name))
}

/// The file of a ref, read as its name wants it.
fn read_file(alloc: Global, name: &[u8], text: &[u8]) -> Result<Head, HeadFault>
    ensures gives { GivesHead result (file_of name.now text.now) }
    ensures value { IfOk result IsHeadValue }
{
    if name == b"HEAD".as_slice() {
        return parse_head(alloc, text);
    }
    parse_loose(alloc, text)
}

#[tactic(auto, unfolding(crate::specs::Values::file_head))]
fn file_head(alloc: Global, name: &[u8], text: &[u8]) -> Result<Head, Halt<RefFault>>
    ensures gives { Gives (λ head. head) result (file_head_of name.now text.now) }
    ensures value { IfOk result IsHeadValue }
    ensures no_fault { IsErrOf result Halt.Fault → ⊥ }
{
    match read_file(alloc, name, text) {
        Ok(head) => Ok(head),
        Err(HeadFault::Bad) => Err(Halt::Stops(RefFault::BadRef {
            name: name_of(alloc, name)?,
        })),
        Err(HeadFault::Memory) => Err(Halt::Memory),
    }
}

/// Where the files of a name lead, to which one file leads, where so many may be read.
#[tactic(auto, using(crate::proofs::Chains::chain_steps))]
fn end_from<S: Store>(
    alloc: Global,
    store: &mut S,
    left: usize,
    from: &[u8],
    name: &[u8],
) -> Result<Head, Halt<RefFault>>
    requires { IsRefName name.now }
    ensures gives { S.told → Gives (λ head. head) result (end_within left (S.seen store.old).content from.now name.now) }
    ensures reads { Reads S.told halt_cause result (S.seen store.old) (S.seen store.new) }
{
    if left == 0 {
        return Err(Halt::Stops(RefFault::BadRef {
            name: name_of(alloc, from)?,
        }));
    }
    let path = ref_file(alloc, name)?;
    let Some(text) = store.get(alloc, &path)? else {
        return Ok(Head::Branch(name_of(alloc, name)?));
    };
    match file_head(alloc, name, &text)? {
        Head::Detached(id) => Ok(Head::Detached(id)),
        Head::Branch(other) => end_from(alloc, store, left - 1, name, other.as_slice()),
    }
}

#[tactic(auto, unfolding(crate::specs::Values::head_end))]
fn head_end<S: Store>(alloc: Global, store: &mut S) -> Result<Head, Halt<RefFault>>
    ensures gives { S.told → Gives (λ head. head) result (head_end_of (S.seen store.old).content) }
    ensures reads { Reads S.told halt_cause result (S.seen store.old) (S.seen store.new) }
{
    match head(alloc, store)? {
        Head::Detached(id) => Ok(Head::Detached(id)),
        Head::Branch(branch) => end_from(alloc, store, 5, b"HEAD", branch.as_slice()),
    }
}

/// Where the loose files of a name lead: to an id, or to a name without a file. BadHead and BadRef as of `resolve`.
#[tactic(auto, unfolding(crate::specs::Values::end_at))]
pub(crate) fn end_of_name<S: Store>(
    alloc: Global,
    store: &mut S,
    name: &[u8],
) -> Result<Head, Halt<RefFault>>
    requires { IsRefName name.now }
    ensures gives { S.told → Gives (λ head. head) result (end_of (S.seen store.old).content name.now) }
    ensures reads { Reads S.told halt_cause result (S.seen store.old) (S.seen store.new) }
{
    if name == b"HEAD".as_slice() {
        return head_end(alloc, store);
    }
    end_from(alloc, store, 6, name, name)
}

/// The value of an end, by these packed refs.
pub(crate) fn value_by(packed: &[(Bytes, Id)], end: &Head) -> Option<Id>
    ensures { result ≡ value_by_of packed.now end.now }
{
    match end {
        Head::Detached(id) => Some(*id),
        Head::Branch(name) => value_in(packed, name.as_slice()),
    }
}

#[tactic(auto, unfolding(crate::specs::Values::settled))]
fn settled<S: Store>(alloc: Global, store: &mut S, end: &Head) -> Result<Option<Id>, Halt<RefFault>>
    ensures gives { S.told → Gives (λ id. id) result (settled_of (S.seen store.old).content end.now) }
    ensures reads { Reads S.told halt_cause result (S.seen store.old) (S.seen store.new) }
{
    match end {
        Head::Detached(id) => Ok(Some(*id)),
        Head::Branch(name) => packed_value(alloc, store, name.as_slice()),
    }
}

/// The value of a ref, if it has one: that of its own file, which may lead on to another name, five times at most; else that of its
/// first line among the packed refs, which are read once. BadHead of HEAD alone, where its file is missing or is none; else BadRef
/// with the name of the first file that is none of a ref, or of the sixth that leads on; else BadPacked, where no file decides
/// (gitrepository-layout(5); git-rev-parse(1)).
#[tactic(auto, unfolding(crate::specs::Values::value_at))]
pub fn resolve<S: Store>(
    alloc: Global,
    store: &mut S,
    name: &[u8],
) -> Result<Option<Id>, Halt<RefFault>>
    requires { IsRefName name.now }
    ensures gives { S.told → Gives (λ id. id) result (value_at (S.seen store.old).content name.now) }
    ensures reads { Reads S.told halt_cause result (S.seen store.old) (S.seen store.new) }
{
    let end = end_of_name(alloc, store, name)?;
    settled(alloc, store, &end)
}

fn log_in(alloc: Global, text: &[u8]) -> Result<Vec<LogLine>, Halt<RefFault>>
    ensures gives { Gives (λ lines. lines.items) result (or_bad BadLog (log_of text.now)) }
    ensures no_fault { IsErrOf result Halt.Fault → ⊥ }
{
    match parse_log(alloc, text) {
        Ok(lines) => Ok(lines),
        Err(LineFault::Bad { line }) => Err(Halt::Stops(RefFault::BadLog { line })),
        Err(LineFault::Memory) => Err(Halt::Memory),
    }
}

/// The lines of the log of a ref, oldest first; none where it has no file. BadLog where that is no reflog (git-reflog(1)).
#[tactic(auto, unfolding(crate::specs::Values::log_at))]
pub fn log<S: Store>(
    alloc: Global,
    store: &mut S,
    name: &[u8],
) -> Result<Vec<LogLine>, Halt<RefFault>>
    requires { IsRefName name.now }
    ensures gives { S.told → Gives (λ lines. lines.items) result (log_at (S.seen store.old).content name.now) }
    ensures reads { Reads S.told halt_cause result (S.seen store.old) (S.seen store.new) }
{
    let path = log_file(alloc, name)?;
    let text = file_text(alloc, store, &path)?;
    log_in(alloc, &text)
}
