//! Stops, by the names of their variants and then their fields.

use cases::{CaseFault, Fields};
use seq_model::{LimitWhat, Reason, StopKind, TodoKind};
use seq_outside::Exit;

pub fn limit_what(word: &str) -> Result<LimitWhat, CaseFault> {
    match word {
        "ObjectBytes" => Ok(LimitWhat::ObjectBytes),
        "TreeDepth" => Ok(LimitWhat::TreeDepth),
        "IndexEntries" => Ok(LimitWhat::IndexEntries),
        "TodoLines" => Ok(LimitWhat::TodoLines),
        "TodoBytes" => Ok(LimitWhat::TodoBytes),
        "Labels" => Ok(LimitWhat::Labels),
        "Parents" => Ok(LimitWhat::Parents),
        "Commits" => Ok(LimitWhat::Commits),
        "Jobs" => Ok(LimitWhat::Jobs),
        _ => Err(CaseFault::Form),
    }
}

pub fn todo_kind(word: &str) -> Result<TodoKind, CaseFault> {
    match word {
        "Command" => Ok(TodoKind::Command),
        "Missing" => Ok(TodoKind::Missing),
        "Extra" => Ok(TodoKind::Extra),
        "Label" => Ok(TodoKind::Label),
        "RefName" => Ok(TodoKind::RefName),
        "Octopus" => Ok(TodoKind::Octopus),
        "NoEarlier" => Ok(TodoKind::NoEarlier),
        "NoSuchCommit" => Ok(TodoKind::NoSuchCommit),
        "MergePicked" => Ok(TodoKind::MergePicked),
        "OwnBranch" => Ok(TodoKind::OwnBranch),
        "NotBuilt" => Ok(TodoKind::NotBuilt),
        _ => Err(CaseFault::Form),
    }
}

/// `Killed`, or an exit code.
pub fn exit(fields: &mut Fields<'_>) -> Result<Exit, CaseFault> {
    let word = fields.word()?;
    if word == "Killed" {
        return Ok(Exit::Killed);
    }
    match word.parse::<u8>() {
        Ok(code) => Ok(Exit::Code(code)),
        Err(_) => Err(CaseFault::Form),
    }
}

fn reason(fields: &mut Fields<'_>) -> Result<Reason, CaseFault> {
    match fields.word()? {
        "WouldOverwrite" => Ok(Reason::WouldOverwrite {
            path: fields.owned()?,
        }),
        "BadName" => Ok(Reason::BadName {
            word: fields.owned()?,
        }),
        "NoBase" => Ok(Reason::NoBase),
        "SeveralBases" => {
            let first = fields.id()?;
            let second = fields.id()?;
            Ok(Reason::SeveralBases { first, second })
        }
        "BadObject" => Ok(Reason::BadObject { id: fields.id()? }),
        "BadHead" => Ok(Reason::BadHead),
        "BadIndex" => Ok(Reason::BadIndex),
        "HeadMoved" => Ok(Reason::HeadMoved {
            found: fields.id_or_none()?,
        }),
        "Dirty" => Ok(Reason::Dirty {
            path: fields.owned()?,
        }),
        "Limit" => {
            let what = limit_what(fields.word()?)?;
            let number = fields.number()?;
            Ok(Reason::Limit { what, number })
        }
        _ => Err(CaseFault::Form),
    }
}

fn plain_stop(word: &str) -> Option<StopKind> {
    match word {
        "Conflict" => Some(StopKind::Conflict),
        "Edit" => Some(StopKind::Edit),
        "Break" => Some(StopKind::Break),
        "EmptyMessage" => Some(StopKind::EmptyMessage),
        _ => None,
    }
}

fn stop_of(word: &str, fields: &mut Fields<'_>) -> Result<StopKind, CaseFault> {
    match word {
        "ExecFailed" => Ok(StopKind::ExecFailed {
            exit: exit(fields)?,
        }),
        "ExecDirty" => Ok(StopKind::ExecDirty {
            path: fields.owned()?,
        }),
        "Empty" => Ok(StopKind::Empty { id: fields.id()? }),
        "HookRefused" => {
            let name = fields.owned()?;
            let exit = exit(fields)?;
            Ok(StopKind::HookRefused { name, exit })
        }
        "EditorFailed" => Ok(StopKind::EditorFailed {
            exit: exit(fields)?,
        }),
        "DriverBroken" => {
            let path = fields.owned()?;
            let exit = exit(fields)?;
            Ok(StopKind::DriverBroken { path, exit })
        }
        "Blocked" => Ok(StopKind::Blocked(reason(fields)?)),
        "TodoBad" => {
            let line = fields.number()?;
            let kind = todo_kind(fields.word()?)?;
            Ok(StopKind::TodoBad { line, kind })
        }
        "RefMoved" => {
            let name = fields.owned()?;
            let found = fields.id_or_none()?;
            Ok(StopKind::RefMoved { name, found })
        }
        _ => Err(CaseFault::Form),
    }
}

pub fn stop_kind(fields: &mut Fields<'_>) -> Result<StopKind, CaseFault> {
    let word = fields.word()?;
    match plain_stop(word) {
        Some(kind) => Ok(kind),
        None => stop_of(word, fields),
    }
}
