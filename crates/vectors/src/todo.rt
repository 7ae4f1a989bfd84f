//! Cases of `todo_text`.

use crate::failure::{Failure, value};
use cases::{Answer, Case, CaseFault, put_line};
use std::alloc::AllocError;
use todo_text::{TodoFault, TodoKind, line_text, parse_todo};

fn kind_word(kind: TodoKind) -> &'static [u8] {
    match kind {
        TodoKind::Command => b"command",
        TodoKind::Missing => b"missing",
        TodoKind::Extra => b"extra",
        TodoKind::Label => b"label",
        TodoKind::RefName => b"ref-name",
        TodoKind::Octopus => b"octopus",
        TodoKind::NoEarlier => b"no-earlier",
        TodoKind::NoSuchCommit => b"no-such-commit",
        TodoKind::MergePicked => b"merge-picked",
        TodoKind::OwnBranch => b"own-branch",
        TodoKind::NotBuilt => b"not-built",
    }
}

impl Failure for TodoFault {
    fn tell(self, out: &mut Answer) -> Result<(), AllocError> {
        match self {
            TodoFault::Bad { line, kind } => {
                out.counted(b"bad-line", line)?;
                out.word(kind_word(kind))
            }
            TodoFault::Memory => Err(AllocError),
        }
    }
}

/// EARLIER TEXT: the lines. EARLIER is `yes` where a line was done before.
pub fn lines(case: &mut Case<'_>) -> Result<(), CaseFault> {
    let earlier = case.fields.yes_or_no()?;
    let parsed = parse_todo(case.alloc, case.fields.bytes()?, earlier);
    let lines = value(parsed, &mut case.out)?;
    case.out.counted(b"lines", lines.len() as u64)?;
    for line in lines.iter() {
        put_line(&mut case.out, line)?;
    }
    Ok(())
}

/// EARLIER TEXT: the canonical text of each line.
pub fn again(case: &mut Case<'_>) -> Result<(), CaseFault> {
    let earlier = case.fields.yes_or_no()?;
    let parsed = parse_todo(case.alloc, case.fields.bytes()?, earlier);
    let lines = value(parsed, &mut case.out)?;
    case.out.counted(b"lines", lines.len() as u64)?;
    for line in lines.iter() {
        case.out.bytes(&line_text(case.alloc, line)?)?;
    }
    Ok(())
}

/// COUNT TEXT: the number of lines where the text stands so many times. A large count shows a step that goes over the whole text
/// for each line.
pub fn many(case: &mut Case<'_>) -> Result<(), CaseFault> {
    let count = case.fields.number()?;
    let text = case.fields.bytes()?;
    let mut whole = Vec::new(case.alloc);
    for _ in 0..count {
        whole.extend_from_slice(text)?;
    }
    let lines = value(parse_todo(case.alloc, &whole, true), &mut case.out)?;
    case.out.counted(b"lines", lines.len() as u64)?;
    Ok(())
}
