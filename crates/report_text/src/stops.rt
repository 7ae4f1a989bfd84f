//! What is printed of a stop.
#![tactic(auto, using(crate::proofs::Appends::appends))]

ghost use Rattle.std.specs.Prelude.{◌≡◌, ◌++◌, ◌∷◌, OnOk};
ghost use Rattle.seq_model.specs.Reasons.{reason_name as reason_name_of, reason_fields};
ghost use Rattle.seq_model.specs.StopKinds.{stop_kind_name as stop_kind_name_of, stop_kind_fields};

use crate::fields::{
    push_bytes, push_bytes_exit, push_bytes_found, push_exit, push_found, push_id, push_limit,
    push_todo_bad, push_two_ids,
};
use crate::names::{reason_name, stop_kind_name};
use seq_model::{Reason, StopKind};
use std::alloc::AllocError;

fn push_reason_fields(text: &mut Vec<u8>, value: &Reason) -> Result<(), AllocError>
    ensures { OnOk result (text.new.items ≡ text.old.items ++ reason_fields value.now) }
{
    match value {
        Reason::WouldOverwrite { path } => push_bytes(text, path.as_slice()),
        Reason::BadName { word } => push_bytes(text, word.as_slice()),
        Reason::NoBase => Ok(()),
        Reason::SeveralBases { first, second } => push_two_ids(text, *first, *second),
        Reason::BadObject { id } => push_id(text, *id),
        Reason::BadHead => Ok(()),
        Reason::BadIndex => Ok(()),
        Reason::HeadMoved { found } => push_found(text, *found),
        Reason::Dirty { path } => push_bytes(text, path.as_slice()),
        Reason::Limit { what, number } => push_limit(text, *what, *number),
    }
}

fn push_reason(text: &mut Vec<u8>, reason: &Reason) -> Result<(), AllocError>
    ensures { OnOk result (text.new.items ≡ text.old.items ++ (32 ∷ reason_name_of reason.now ++ reason_fields reason.now)) }
{
    text.push(b' ')?;
    text.extend_from_slice(reason_name(reason))?;
    push_reason_fields(text, reason)
}

fn push_stop_kind_fields(text: &mut Vec<u8>, value: &StopKind) -> Result<(), AllocError>
    ensures { OnOk result (text.new.items ≡ text.old.items ++ stop_kind_fields value.now) }
{
    match value {
        StopKind::Conflict => Ok(()),
        StopKind::Edit => Ok(()),
        StopKind::Break => Ok(()),
        StopKind::ExecFailed { exit } => push_exit(text, *exit),
        StopKind::ExecDirty { path } => push_bytes(text, path.as_slice()),
        StopKind::Empty { id } => push_id(text, *id),
        StopKind::HookRefused { name, exit } => push_bytes_exit(text, name.as_slice(), *exit),
        StopKind::EditorFailed { exit } => push_exit(text, *exit),
        StopKind::EmptyMessage => Ok(()),
        StopKind::DriverBroken { path, exit } => push_bytes_exit(text, path.as_slice(), *exit),
        StopKind::Blocked(reason) => push_reason(text, reason),
        StopKind::TodoBad { line, kind } => push_todo_bad(text, *line, *kind),
        StopKind::RefMoved { name, found } => push_bytes_found(text, name.as_slice(), *found),
    }
}

pub fn push_stop(text: &mut Vec<u8>, kind: &StopKind) -> Result<(), AllocError>
    ensures { OnOk result (text.new.items ≡ text.old.items ++ (stop_kind_name_of kind.now ++ stop_kind_fields kind.now)) }
{
    text.extend_from_slice(stop_kind_name(kind))?;
    push_stop_kind_fields(text, kind)
}
