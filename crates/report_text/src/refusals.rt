//! What is printed of a refusal.
#![tactic(auto, using(crate::proofs::Appends::appends))]

ghost use Rattle.std.specs.Prelude.{◌≡◌, ◌++◌, OnOk};
ghost use Rattle.seq_model.specs.Refusals.{refusal_name as refusal_name_of, refusal_fields};

use crate::fields::{
    push_ambiguous, push_bytes, push_bytes_exit, push_exit, push_found, push_id, push_index_fault,
    push_number, push_todo_bad, push_two_ids,
};
use seq_model::Refusal;
use std::alloc::AllocError;

fn refusal_name(value: &Refusal) -> &'static [u8]
    ensures { result.now ≡ refusal_name_of value.now }
{
    match value {
        Refusal::NotARepository => b"not-a-repository".as_slice(),
        Refusal::InProgress { .. } => b"in-progress".as_slice(),
        Refusal::BadHead => b"bad-head".as_slice(),
        Refusal::BadRefs { .. } => b"bad-refs".as_slice(),
        Refusal::BadConfig { .. } => b"bad-config".as_slice(),
        Refusal::Unsupported { .. } => b"unsupported".as_slice(),
        Refusal::BadIndex { .. } => b"bad-index".as_slice(),
        Refusal::NoSuchRev { .. } => b"no-such-rev".as_slice(),
        Refusal::AmbiguousRev { .. } => b"ambiguous-rev".as_slice(),
        Refusal::NotACommit { .. } => b"not-a-commit".as_slice(),
        Refusal::NoParent { .. } => b"no-parent".as_slice(),
        Refusal::NoLogEntry { .. } => b"no-log-entry".as_slice(),
        Refusal::BadRevForm { .. } => b"bad-rev-form".as_slice(),
        Refusal::UnbornHead => b"unborn-head".as_slice(),
        Refusal::NoIdentity => b"no-identity".as_slice(),
        Refusal::Unmerged { .. } => b"unmerged".as_slice(),
        Refusal::Dirty { .. } => b"dirty".as_slice(),
        Refusal::Mainline { .. } => b"mainline".as_slice(),
        Refusal::NoBase => b"no-base".as_slice(),
        Refusal::SeveralBases { .. } => b"several-bases".as_slice(),
        Refusal::Octopus { .. } => b"octopus".as_slice(),
        Refusal::NewRoot { .. } => b"new-root".as_slice(),
        Refusal::HookRefused { .. } => b"hook-refused".as_slice(),
        Refusal::EditorFailed { .. } => b"editor-failed".as_slice(),
        Refusal::NothingToDo => b"nothing-to-do".as_slice(),
        Refusal::HeadMoved { .. } => b"head-moved".as_slice(),
        Refusal::WouldOverwrite { .. } => b"would-overwrite".as_slice(),
        Refusal::BadObject { .. } => b"bad-object".as_slice(),
        Refusal::NothingInProgress => b"nothing-in-progress".as_slice(),
        Refusal::Interrupted => b"interrupted".as_slice(),
        Refusal::BadState { .. } => b"bad-state".as_slice(),
        Refusal::TodoBad { .. } => b"todo-bad".as_slice(),
        Refusal::Unstaged { .. } => b"unstaged".as_slice(),
        Refusal::Staged { .. } => b"staged".as_slice(),
        Refusal::AlreadyARepository => b"already-a-repository".as_slice(),
        Refusal::BadPath { .. } => b"bad-path".as_slice(),
        Refusal::NotTracked { .. } => b"not-tracked".as_slice(),
        Refusal::EmptyMessage => b"empty-message".as_slice(),
        Refusal::NotBuilt => b"not-built".as_slice(),
        Refusal::Conflict { .. } => b"conflict".as_slice(),
        Refusal::DriverBroken { .. } => b"driver-broken".as_slice(),
    }
}

fn push_refusal_fields(text: &mut Vec<u8>, value: &Refusal) -> Result<(), AllocError>
    ensures { OnOk result (text.new.items ≡ text.old.items ++ refusal_fields value.now) }
{
    match value {
        Refusal::NotARepository => Ok(()),
        Refusal::InProgress { path } => push_bytes(text, path.as_slice()),
        Refusal::BadHead => Ok(()),
        Refusal::BadRefs { line } => push_number(text, *line),
        Refusal::BadConfig { line } => push_number(text, *line),
        Refusal::Unsupported { key } => push_bytes(text, key.as_slice()),
        Refusal::BadIndex { fault } => push_index_fault(text, *fault),
        Refusal::NoSuchRev { word } => push_bytes(text, word.as_slice()),
        Refusal::AmbiguousRev {
            word,
            first,
            second,
        } => push_ambiguous(text, word.as_slice(), *first, *second),
        Refusal::NotACommit { word } => push_bytes(text, word.as_slice()),
        Refusal::NoParent { word } => push_bytes(text, word.as_slice()),
        Refusal::NoLogEntry { word } => push_bytes(text, word.as_slice()),
        Refusal::BadRevForm { word } => push_bytes(text, word.as_slice()),
        Refusal::UnbornHead => Ok(()),
        Refusal::NoIdentity => Ok(()),
        Refusal::Unmerged { path } => push_bytes(text, path.as_slice()),
        Refusal::Dirty { path } => push_bytes(text, path.as_slice()),
        Refusal::Mainline { id } => push_id(text, *id),
        Refusal::NoBase => Ok(()),
        Refusal::SeveralBases { first, second } => push_two_ids(text, *first, *second),
        Refusal::Octopus { id } => push_id(text, *id),
        Refusal::NewRoot { id } => push_id(text, *id),
        Refusal::HookRefused { exit } => push_exit(text, *exit),
        Refusal::EditorFailed { exit } => push_exit(text, *exit),
        Refusal::NothingToDo => Ok(()),
        Refusal::HeadMoved { found } => push_found(text, *found),
        Refusal::WouldOverwrite { path } => push_bytes(text, path.as_slice()),
        Refusal::BadObject { id } => push_id(text, *id),
        Refusal::NothingInProgress => Ok(()),
        Refusal::Interrupted => Ok(()),
        Refusal::BadState { file } => push_bytes(text, file.as_slice()),
        Refusal::TodoBad { line, kind } => push_todo_bad(text, *line, *kind),
        Refusal::Unstaged { path } => push_bytes(text, path.as_slice()),
        Refusal::Staged { path } => push_bytes(text, path.as_slice()),
        Refusal::AlreadyARepository => Ok(()),
        Refusal::BadPath { word } => push_bytes(text, word.as_slice()),
        Refusal::NotTracked { path } => push_bytes(text, path.as_slice()),
        Refusal::EmptyMessage => Ok(()),
        Refusal::NotBuilt => Ok(()),
        Refusal::Conflict { path } => push_bytes(text, path.as_slice()),
        Refusal::DriverBroken { path, exit } => push_bytes_exit(text, path.as_slice(), *exit),
    }
}

pub fn push_refusal(text: &mut Vec<u8>, refusal: &Refusal) -> Result<(), AllocError>
    ensures { OnOk result (text.new.items ≡ text.old.items ++ (refusal_name_of refusal.now ++ refusal_fields refusal.now)) }
{
    text.extend_from_slice(refusal_name(refusal))?;
    push_refusal_fields(text, refusal)
}
