//! Cases of `report_text`, and of the exit status that `seq_model` gives. The words of a case are the names of the variants.

use crate::refusals::refusal;
use crate::stops::{limit_what, stop_kind};
use cases::{Case, CaseFault, Fields};
use report_text::report;
use seq_model::{LimitWhat, Outcome, Paths, StopKind, UsageFault};
use std::alloc::AllocError;

fn usage_fault(fields: &mut Fields<'_>) -> Result<UsageFault, CaseFault> {
    match fields.word()? {
        "NoVerb" => Ok(UsageFault::NoVerb),
        "UnknownVerb" => Ok(UsageFault::UnknownVerb {
            word: fields.owned()?,
        }),
        "Parse" => Ok(UsageFault::Parse),
        "Value" => Ok(UsageFault::Value {
            word: fields.owned()?,
        }),
        "Missing" => Ok(UsageFault::Missing),
        "Pair" => {
            let first = fields.owned()?;
            let second = fields.owned()?;
            Ok(UsageFault::Pair { first, second })
        }
        _ => Err(CaseFault::Form),
    }
}

fn stopped(fields: &mut Fields<'_>) -> Result<Outcome, CaseFault> {
    let kind: StopKind = stop_kind(fields)?;
    let paths = fields.paths()?;
    Ok(Outcome::Stopped {
        kind,
        paths: Paths::from_vec(paths),
    })
}

fn limit(fields: &mut Fields<'_>) -> Result<Outcome, CaseFault> {
    let what: LimitWhat = limit_what(fields.word()?)?;
    let number = fields.number()?;
    Ok(Outcome::Limit { what, number })
}

fn outcome(fields: &mut Fields<'_>) -> Result<Outcome, CaseFault> {
    match fields.word()? {
        "Done" => Ok(Outcome::Done {
            head: fields.id_or_none()?,
        }),
        "Stopped" => stopped(fields),
        "Usage" => Ok(Outcome::Usage(usage_fault(fields)?)),
        "Refused" => Ok(Outcome::Refused(refusal(fields)?)),
        "StoreFault" => Ok(Outcome::StoreFault),
        "ChildFault" => Ok(Outcome::ChildFault),
        "OutputFault" => Ok(Outcome::OutputFault),
        "Limit" => limit(fields),
        "Memory" => Ok(Outcome::Memory),
        _ => Err(CaseFault::Form),
    }
}

fn put_report(case: &mut Case<'_>, outcome: &Outcome) -> Result<(), AllocError> {
    case.out.number(u64::from(outcome.status()))?;
    case.out.bytes(&report(case.alloc, outcome)?)
}

/// An outcome: its exit status, and its report.
pub fn report_of(case: &mut Case<'_>) -> Result<(), CaseFault> {
    let outcome = outcome(&mut case.fields)?;
    put_report(case, &outcome)?;
    Ok(())
}

/// Paths: those that an outcome keeps.
pub fn kept_paths(case: &mut Case<'_>) -> Result<(), CaseFault> {
    let paths = Paths::from_vec(case.fields.paths()?);
    case.out.counted(b"paths", paths.as_slice().len() as u64)?;
    for path in paths.into_vec().iter() {
        case.out.bytes(path.bytes())?;
    }
    Ok(())
}
