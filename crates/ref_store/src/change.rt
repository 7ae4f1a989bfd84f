//! Refs that are changed.

ghost use Rattle.std.specs.FinMap as map;
ghost use Rattle.std.specs.Option.{option_map};
ghost use Rattle.std.specs.Prelude.{◌≡◌, ◌||◌, false, IfOk, IfSome, Ok, List, ℕ};
ghost use Rattle.ref_store.specs.Steps.{Does, StaysBut, StaysWhere};
ghost use Rattle.ref_store.specs.Changes.{IsBlockedFor, KeepsIfStopped, NeverStops, IsOutside, expected_at, is_barred, head_line_put, head_noted, head_put, head_set, is_value as is_value_of, line_noted, line_put, updated, value_noted, value_put, writable_at};
ghost use Rattle.ref_text.specs.Heads.{IsHeadValue};
ghost use Rattle.ref_text.specs.Logs.{IsLogValue};
ghost use Rattle.ref_text.specs.Refs.{head_name, log_path, ref_path};
ghost use Rattle.seq_base.specs.RefNames.{IsRefName};
ghost use Rattle.seq_outside.specs.Halts.{Gives, halt_cause};
ghost use Rattle.seq_outside.specs.Seen.{Reads, Writes, store_cause};

use crate::branch::{add_line, set_ref};
use crate::fault::RefFault;
use crate::place::{log_file, name_of, ref_file};
use crate::read::resolve;
use ref_text::{Head, LogLine, head_text};
use seq_base::{Bytes, Id};
use seq_outside::{Halt, Lack, Store, StoreError, is_blocked, put_file};
use std::alloc::Global;

fn is_value(found: &Option<Id>, expected: &Option<Id>) -> bool
    ensures { result ≡ is_value_of found.now expected.now }
{
    match (found, expected) {
        (None, None) => true,
        (Some(found), Some(expected)) => found.bytes() == expected.bytes(),
        (None, Some(_)) => false,
        (Some(_), None) => false,
    }
}

/// Moved where a name has another value than is expected.
#[tactic(auto, unfolding(crate::specs::Changes::expected_at))]
fn expect<S: Store>(
    alloc: Global,
    store: &mut S,
    name: &[u8],
    expected: &Option<Id>,
) -> Result<(), Halt<RefFault>>
    requires { IsRefName name.now }
    ensures gives { S.told → Gives (λ x. x) result (expected_at (S.seen store.old).content name.now expected.now) }
    ensures reads { Reads S.told halt_cause result (S.seen store.old) (S.seen store.new) }
{
    let found = resolve(alloc, store, name)?;
    if is_value(&found, expected) {
        Ok(())
    } else {
        Err(Halt::Stops(RefFault::Moved { found }))
    }
}

/// Whether something is in the way of a name's file, or of its log.
pub fn has_in_way<S: Store>(alloc: Global, store: &mut S, name: &[u8]) -> Result<bool, StoreError>
    requires { IsRefName name.now }
    ensures found { S.told → IfOk result (λ found. found ≡ is_barred (S.seen store.old).content name.now) }
    ensures reads { Reads S.told store_cause result (S.seen store.old) (S.seen store.new) }
{
    let path = ref_file(alloc, name)?;
    if is_blocked(alloc, store, &path)? {
        return Ok(true);
    }
    let path = log_file(alloc, name)?;
    is_blocked(alloc, store, &path)
}

/// Blocked where something is in the way of a name's file, or of its log.
#[tactic(auto, unfolding(crate::specs::Changes::writable_at))]
fn want_writable<S: Store>(alloc: Global, store: &mut S, name: &[u8]) -> Result<(), Halt<RefFault>>
    requires { IsRefName name.now }
    ensures gives { S.told → Gives (λ x. x) result (writable_at (S.seen store.old).content name.now) }
    ensures reads { Reads S.told halt_cause result (S.seen store.old) (S.seen store.new) }
{
    if has_in_way(alloc, store, name)? {
        return Err(Halt::Stops(RefFault::Blocked {
            name: name_of(alloc, name)?,
        }));
    }
    Ok(())
}

/// What stands in the way of a put is in the way of the name.
pub(crate) fn or_blocked(
    alloc: Global,
    name: &[u8],
    put: Result<(), Halt<Lack>>,
) -> Result<(), Halt<RefFault>>
    ensures { IsBlockedFor name.now put result }
{
    match put {
        Ok(()) => Ok(()),
        Err(Halt::Stops(_)) => Err(Halt::Stops(RefFault::Blocked {
            name: name_of(alloc, name)?,
        })),
        Err(Halt::Fault) => Err(Halt::Fault),
        Err(Halt::Memory) => Err(Halt::Memory),
    }
}

#[tactic(auto, unfolding(crate::specs::Changes::value_put))]
fn put_value<S: Store>(
    alloc: Global,
    store: &mut S,
    name: &[u8],
    id: Id,
) -> Result<(), Halt<RefFault>>
    requires { IsRefName name.now }
    ensures turns { S.told → Does result (value_put name.now id) (S.seen store.old) (S.seen store.new) }
    ensures elsewhere { S.told → StaysBut (ref_path name.now) (S.seen store.old) (S.seen store.new) }
    ensures writes { Writes S.told halt_cause result (S.seen store.old) (S.seen store.new) }
{
    let put = set_ref(alloc, store, name, id);
    or_blocked(alloc, name, put)
}

#[tactic(auto, unfolding(crate::specs::Changes::line_put))]
fn put_line<S: Store>(
    alloc: Global,
    store: &mut S,
    name: &[u8],
    line: &LogLine,
) -> Result<(), Halt<RefFault>>
    requires name { IsRefName name.now }
    requires line { IsLogValue line.now }
    ensures turns { S.told → Does result (line_put name.now line.now) (S.seen store.old) (S.seen store.new) }
    ensures elsewhere { S.told → StaysBut (log_path name.now) (S.seen store.old) (S.seen store.new) }
    ensures writes { Writes S.told halt_cause result (S.seen store.old) (S.seen store.new) }
{
    let put = add_line(alloc, store, name, line);
    or_blocked(alloc, name, put)
}

fn put_optional_line<S: Store>(
    alloc: Global,
    store: &mut S,
    name: &[u8],
    line: Option<&LogLine>,
) -> Result<(), Halt<RefFault>>
    requires name { IsRefName name.now }
    requires line { IfSome line (λ line. IsLogValue line.now) }
    ensures turns { S.told → Does result (line_noted name.now (option_map (λ line. line.now) line.entry)) (S.seen store.old) (S.seen store.new) }
    ensures elsewhere { S.told → StaysBut (log_path name.now) (S.seen store.old) (S.seen store.new) }
    ensures writes { Writes S.told halt_cause result (S.seen store.old) (S.seen store.new) }
{
    match line {
        Some(line) => put_line(alloc, store, name, line),
        None => Ok(()),
    }
}

/// Gives a ref a value, whatever it has, and its log the line, if one is given and a log is kept of it. Blocked where something is in the
/// way of its file; where something is in the way of its log alone, the value is written and Blocked answered.
#[tactic(auto, unfolding(crate::specs::Changes::value_noted))]
pub fn note_value<S: Store>(
    alloc: Global,
    store: &mut S,
    name: &[u8],
    id: Id,
    line: Option<&LogLine>,
) -> Result<(), Halt<RefFault>>
    requires name { IsRefName name.now }
    requires line { IfSome line (λ line. IsLogValue line.now) }
    ensures turns { S.told → Does result (value_noted name.now id (option_map (λ line. line.now) line.entry)) (S.seen store.old) (S.seen store.new) }
    ensures elsewhere { S.told → StaysWhere (IsOutside name.now) (S.seen store.old) (S.seen store.new) }
    ensures writes { Writes S.told halt_cause result (S.seen store.old) (S.seen store.new) }
{
    put_value(alloc, store, name, id)?;
    put_optional_line(alloc, store, name, line)
}

/// Gives a name that is writable the value, and its log the line.
fn write_value<S: Store>(
    alloc: Global,
    store: &mut S,
    name: &[u8],
    id: Id,
    line: Option<&LogLine>,
) -> Result<(), Halt<RefFault>>
    requires name { IsRefName name.now }
    requires line { IfSome line (λ line. IsLogValue line.now) }
    requires free { S.told → writable_at (S.seen store.old).content name.now ≡ Ok tt }
    ensures turns { S.told → Does result (value_noted name.now id (option_map (λ line. line.now) line.entry)) (S.seen store.old) (S.seen store.new) }
    ensures elsewhere { S.told → StaysWhere (IsOutside name.now) (S.seen store.old) (S.seen store.new) }
    ensures never { S.told → NeverStops result }
    ensures writes { Writes S.told halt_cause result (S.seen store.old) (S.seen store.new) }
{
    note_value(alloc, store, name, id, line)
}

/// Gives a ref a value, where it has the expected one, and its log the line, if one is given and a log is kept of it
/// (git-update-ref(1)). The faults are those of `resolve`; else Moved with the value that it has, where that is another; else Blocked
/// where something is in the way of its file, or of its log. Then nothing is written.
#[tactic(auto, unfolding(crate::specs::Changes::updated))]
pub fn update<S: Store>(
    alloc: Global,
    store: &mut S,
    name: &[u8],
    expected: Option<Id>,
    new: Id,
    line: Option<&LogLine>,
) -> Result<(), Halt<RefFault>>
    requires name { IsRefName name.now }
    requires line { IfSome line (λ line. IsLogValue line.now) }
    ensures turns { S.told → Does result
        (updated name.now expected new (option_map (λ line. line.now) line.entry))
        (S.seen store.old)
        (S.seen store.new) }
    ensures elsewhere { S.told → StaysWhere (IsOutside name.now) (S.seen store.old) (S.seen store.new) }
    ensures unchanged { S.told → KeepsIfStopped result (S.seen store.old).content (S.seen store.new).content }
    ensures writes { Writes S.told halt_cause result (S.seen store.old) (S.seen store.new) }
{
    expect(alloc, store, name, &expected)?;
    want_writable(alloc, store, name)?;
    write_value(alloc, store, name, new, line)
}

/// Writes HEAD's file, and nothing into its log. Blocked where something is in the way of it; then nothing is written.
#[tactic(auto, unfolding(crate::specs::Changes::head_put))]
pub fn put_head<S: Store>(alloc: Global, store: &mut S, head: &Head) -> Result<(), Halt<RefFault>>
    requires { IsHeadValue head.now }
    ensures turns { S.told → Does result (head_put head.now) (S.seen store.old) (S.seen store.new) }
    ensures elsewhere { S.told → StaysBut (ref_path head_name) (S.seen store.old) (S.seen store.new) }
    ensures writes { Writes S.told halt_cause result (S.seen store.old) (S.seen store.new) }
{
    let path = ref_file(alloc, b"HEAD")?;
    let text = head_text(alloc, head)?;
    let put = put_file(alloc, store, Bytes::from_vec(path), &text);
    or_blocked(alloc, b"HEAD", put)
}

#[tactic(auto, unfolding(crate::specs::Changes::head_line_put))]
fn put_head_line<S: Store>(
    alloc: Global,
    store: &mut S,
    line: &LogLine,
) -> Result<(), Halt<RefFault>>
    requires { IsLogValue line.now }
    ensures turns { S.told → Does result (head_line_put line.now) (S.seen store.old) (S.seen store.new) }
    ensures elsewhere { S.told → StaysBut (log_path head_name) (S.seen store.old) (S.seen store.new) }
    ensures writes { Writes S.told halt_cause result (S.seen store.old) (S.seen store.new) }
{
    put_line(alloc, store, b"HEAD", line)
}

#[tactic(auto, unfolding(crate::specs::Changes::head_noted))]
fn note_head<S: Store>(
    alloc: Global,
    store: &mut S,
    head: &Head,
    line: &LogLine,
) -> Result<(), Halt<RefFault>>
    requires head { IsHeadValue head.now }
    requires line { IsLogValue line.now }
    ensures turns { S.told → Does result (head_noted head.now line.now) (S.seen store.old) (S.seen store.new) }
    ensures elsewhere { S.told → StaysWhere (IsOutside head_name) (S.seen store.old) (S.seen store.new) }
    ensures writes { Writes S.told halt_cause result (S.seen store.old) (S.seen store.new) }
{
    put_head(alloc, store, head)?;
    put_head_line(alloc, store, line)
}

/// Sets HEAD where it is writable, and its log has the line.
fn write_head<S: Store>(
    alloc: Global,
    store: &mut S,
    head: &Head,
    line: &LogLine,
) -> Result<(), Halt<RefFault>>
    requires head { IsHeadValue head.now }
    requires line { IsLogValue line.now }
    requires free { S.told → writable_at (S.seen store.old).content head_name ≡ Ok tt }
    ensures turns { S.told → Does result (head_noted head.now line.now) (S.seen store.old) (S.seen store.new) }
    ensures elsewhere { S.told → StaysWhere (IsOutside head_name) (S.seen store.old) (S.seen store.new) }
    ensures never { S.told → NeverStops result }
    ensures writes { Writes S.told halt_cause result (S.seen store.old) (S.seen store.new) }
{
    note_head(alloc, store, head, line)
}

/// Sets HEAD to a branch or to a commit, and its log has the line (git-symbolic-ref(1), git-update-ref(1)). Blocked where something is
/// in the way of its file or of its log; then nothing is written.
#[tactic(auto, unfolding(crate::specs::Changes::head_set))]
pub fn set_head<S: Store>(
    alloc: Global,
    store: &mut S,
    head: &Head,
    line: &LogLine,
) -> Result<(), Halt<RefFault>>
    requires head { IsHeadValue head.now }
    requires line { IsLogValue line.now }
    ensures turns { S.told → Does result (head_set head.now line.now) (S.seen store.old) (S.seen store.new) }
    ensures elsewhere { S.told → StaysWhere (IsOutside head_name) (S.seen store.old) (S.seen store.new) }
    ensures unchanged { S.told → KeepsIfStopped result (S.seen store.old).content (S.seen store.new).content }
    ensures writes { Writes S.told halt_cause result (S.seen store.old) (S.seen store.new) }
{
    want_writable(alloc, store, b"HEAD")?;
    write_head(alloc, store, head, line)
}
