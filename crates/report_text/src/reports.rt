//! What an invocation prints.
#![tactic(auto, using(crate::proofs::Appends::appends))]

ghost use Rattle.std.specs.Prelude.{◌≡◌, ◌++◌, ◌∷◌, [], IfOk, OnOk, map};
ghost use Rattle.seq_model.specs.Report.{head_field, lines_after, report_of, unmerged_lines};
ghost use Rattle.seq_model.specs.UsageFaults.{usage_fault_name as usage_fault_name_of, usage_fault_fields};
ghost use Rattle.seq_model.specs.StopKinds.{stop_kind_name as stop_kind_name_of, stop_kind_fields};

use crate::fields::{push_bytes, push_id, push_limit, push_two_bytes};
use crate::names::usage_fault_name;
use crate::refusals::push_refusal;
use crate::stops::push_stop;
use seq_base::{Id, Path};
use seq_model::{Outcome, StopKind, UsageFault};
use std::alloc::{AllocError, Global};

fn push_head(text: &mut Vec<u8>, head: Option<Id>) -> Result<(), AllocError>
    ensures { OnOk result (text.new.items ≡ text.old.items ++ head_field head) }
{
    match head {
        None => text.extend_from_slice(b" unborn"),
        Some(id) => push_id(text, id),
    }
}

fn push_usage_fault_fields(text: &mut Vec<u8>, value: &UsageFault) -> Result<(), AllocError>
    ensures { OnOk result (text.new.items ≡ text.old.items ++ usage_fault_fields value.now) }
{
    match value {
        UsageFault::NoVerb => Ok(()),
        UsageFault::UnknownVerb { word } => push_bytes(text, word.as_slice()),
        UsageFault::Parse => Ok(()),
        UsageFault::Value { word } => push_bytes(text, word.as_slice()),
        UsageFault::Missing => Ok(()),
        UsageFault::Pair { first, second } => push_two_bytes(
            text,
            first.as_slice(),
            second.as_slice(),
        ),
    }
}

fn push_unmerged(text: &mut Vec<u8>, paths: &[Path]) -> Result<(), AllocError>
    ensures { OnOk result (text.new.items ≡ text.old.items ++ unmerged_lines paths.now) }
{
    let mut rest = paths;
    while let [path, after @ ..] = rest {
        text.push(b'U')?;
        push_bytes(text, path.bytes())?;
        text.push(b'\n')?;
        rest = after;
    }
    Ok(())
}

fn push_lines(text: &mut Vec<u8>, kind: &StopKind, paths: &[Path]) -> Result<(), AllocError>
    ensures { OnOk result (text.new.items ≡ text.old.items ++ lines_after kind.now paths.now) }
{
    match kind {
        StopKind::Conflict => push_unmerged(text, paths),
        _ => Ok(()),
    }
}

fn push_stopped(text: &mut Vec<u8>, kind: &StopKind, paths: &[Path]) -> Result<(), AllocError>
    ensures { OnOk result (text.new.items ≡ text.old.items
        ++ (stop_kind_name_of kind.now ++ stop_kind_fields kind.now ++ 10 ∷ lines_after kind.now paths.now)) }
{
    push_stop(text, kind)?;
    text.push(b'\n')?;
    push_lines(text, kind, paths)
}

fn push_usage(text: &mut Vec<u8>, fault: &UsageFault) -> Result<(), AllocError>
    ensures { OnOk result (text.new.items ≡ text.old.items ++ (usage_fault_name_of fault.now ++ usage_fault_fields fault.now)) }
{
    text.extend_from_slice(usage_fault_name(fault))?;
    push_usage_fault_fields(text, fault)
}

/// What an invocation with this outcome prints, but for `status` and `cat`, which print their own text when they are done:
/// the outcome's name in lower case, with `-` before each later capital, the inner kind in the same way, then the fields,
/// with one space before each, and a line feed; after a conflict a line `U <path>` for each unmerged path. Want of memory has
/// no report.
pub fn report(alloc: Global, outcome: &Outcome) -> Result<Vec<u8>, AllocError>
    ensures { IfOk result (λ text. text.items ≡ report_of outcome.now) }
{
    let mut text = Vec::new(alloc);
    match outcome {
        Outcome::Done { head } => {
            text.extend_from_slice(b"done")?;
            push_head(&mut text, *head)?;
            text.push(b'\n')?;
        }
        Outcome::Stopped { kind, paths } => {
            text.extend_from_slice(b"stopped ")?;
            push_stopped(&mut text, kind, paths.as_slice())?;
        }
        Outcome::Usage(fault) => {
            text.extend_from_slice(b"usage ")?;
            push_usage(&mut text, fault)?;
            text.push(b'\n')?;
        }
        Outcome::Refused(refusal) => {
            text.extend_from_slice(b"refused ")?;
            push_refusal(&mut text, refusal)?;
            text.push(b'\n')?;
        }
        Outcome::StoreFault => text.extend_from_slice(b"store-fault\n")?,
        Outcome::ChildFault => text.extend_from_slice(b"child-fault\n")?,
        Outcome::OutputFault => text.extend_from_slice(b"output-fault\n")?,
        Outcome::Limit { what, number } => {
            text.extend_from_slice(b"limit")?;
            push_limit(&mut text, *what, *number)?;
            text.push(b'\n')?;
        }
        Outcome::Memory => {}
    }
    Ok(text)
}
