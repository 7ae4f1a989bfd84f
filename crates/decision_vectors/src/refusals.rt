//! Refusals, by the names of their variants and then their fields.

use crate::stops::{exit, todo_kind};
use cases::{CaseFault, Fields};
use index_file::IndexFault;
use seq_base::Bytes;
use seq_model::Refusal;

/// A refusal without fields.
fn plain(word: &str) -> Option<Refusal> {
    match word {
        "NotARepository" => Some(Refusal::NotARepository),
        "BadHead" => Some(Refusal::BadHead),
        "UnbornHead" => Some(Refusal::UnbornHead),
        "NoIdentity" => Some(Refusal::NoIdentity),
        "NoBase" => Some(Refusal::NoBase),
        "NothingToDo" => Some(Refusal::NothingToDo),
        "NothingInProgress" => Some(Refusal::NothingInProgress),
        "Interrupted" => Some(Refusal::Interrupted),
        "AlreadyARepository" => Some(Refusal::AlreadyARepository),
        "EmptyMessage" => Some(Refusal::EmptyMessage),
        "NotBuilt" => Some(Refusal::NotBuilt),
        _ => None,
    }
}

/// A refusal with a word or a file.
fn of_word(name: &str, word: Bytes) -> Result<Refusal, CaseFault> {
    match name {
        "NoSuchRev" => Ok(Refusal::NoSuchRev { word }),
        "NotACommit" => Ok(Refusal::NotACommit { word }),
        "NoParent" => Ok(Refusal::NoParent { word }),
        "NoLogEntry" => Ok(Refusal::NoLogEntry { word }),
        "BadRevForm" => Ok(Refusal::BadRevForm { word }),
        "BadPath" => Ok(Refusal::BadPath { word }),
        "Unsupported" => Ok(Refusal::Unsupported { key: word }),
        "BadState" => Ok(Refusal::BadState { file: word }),
        _ => of_path(name, word),
    }
}

/// A refusal with a path.
fn of_path(name: &str, path: Bytes) -> Result<Refusal, CaseFault> {
    match name {
        "InProgress" => Ok(Refusal::InProgress { path }),
        "Unmerged" => Ok(Refusal::Unmerged { path }),
        "Dirty" => Ok(Refusal::Dirty { path }),
        "WouldOverwrite" => Ok(Refusal::WouldOverwrite { path }),
        "Unstaged" => Ok(Refusal::Unstaged { path }),
        "Staged" => Ok(Refusal::Staged { path }),
        "NotTracked" => Ok(Refusal::NotTracked { path }),
        "Conflict" => Ok(Refusal::Conflict { path }),
        _ => Err(CaseFault::Form),
    }
}

/// A refusal with an id, a line or an exit.
fn of_field(name: &str, fields: &mut Fields<'_>) -> Result<Option<Refusal>, CaseFault> {
    let refusal = match name {
        "Mainline" => Refusal::Mainline { id: fields.id()? },
        "Octopus" => Refusal::Octopus { id: fields.id()? },
        "NewRoot" => Refusal::NewRoot { id: fields.id()? },
        "BadObject" => Refusal::BadObject { id: fields.id()? },
        "BadRefs" => Refusal::BadRefs {
            line: fields.number()?,
        },
        "BadConfig" => Refusal::BadConfig {
            line: fields.number()?,
        },
        "HookRefused" => Refusal::HookRefused {
            exit: exit(fields)?,
        },
        "EditorFailed" => Refusal::EditorFailed {
            exit: exit(fields)?,
        },
        "HeadMoved" => Refusal::HeadMoved {
            found: fields.id_or_none()?,
        },
        _ => return Ok(None),
    };
    Ok(Some(refusal))
}

fn index_fault(fields: &mut Fields<'_>) -> Result<IndexFault, CaseFault> {
    match fields.word()? {
        "Magic" => Ok(IndexFault::Magic),
        "Version" => Ok(IndexFault::Version {
            n: fields.number()?,
        }),
        "Count" => Ok(IndexFault::Count),
        "Name" => Ok(IndexFault::Name {
            n: fields.number()?,
        }),
        "Order" => Ok(IndexFault::Order {
            n: fields.number()?,
        }),
        "Extension" => match fields.bytes()? {
            [a, b, c, d] => Ok(IndexFault::Extension {
                tag: [*a, *b, *c, *d],
            }),
            _ => Err(CaseFault::Form),
        },
        "Hash" => Ok(IndexFault::Hash),
        "Memory" => Ok(IndexFault::Memory),
        _ => Err(CaseFault::Form),
    }
}

/// A refusal with several fields, or with a fault.
fn of_fields(name: &str, fields: &mut Fields<'_>) -> Result<Option<Refusal>, CaseFault> {
    let refusal = match name {
        "BadIndex" => Refusal::BadIndex {
            fault: index_fault(fields)?,
        },
        "AmbiguousRev" => {
            let word = fields.owned()?;
            let first = fields.id()?;
            let second = fields.id()?;
            Refusal::AmbiguousRev {
                word,
                first,
                second,
            }
        }
        "SeveralBases" => {
            let first = fields.id()?;
            let second = fields.id()?;
            Refusal::SeveralBases { first, second }
        }
        "TodoBad" => {
            let line = fields.number()?;
            let kind = todo_kind(fields.word()?)?;
            Refusal::TodoBad { line, kind }
        }
        "DriverBroken" => {
            let path = fields.owned()?;
            let exit = exit(fields)?;
            Refusal::DriverBroken { path, exit }
        }
        _ => return Ok(None),
    };
    Ok(Some(refusal))
}

pub fn refusal(fields: &mut Fields<'_>) -> Result<Refusal, CaseFault> {
    let name = fields.word()?;
    if let Some(refusal) = plain(name) {
        return Ok(refusal);
    }
    if let Some(refusal) = of_field(name, fields)? {
        return Ok(refusal);
    }
    if let Some(refusal) = of_fields(name, fields)? {
        return Ok(refusal);
    }
    of_word(name, fields.owned()?)
}
