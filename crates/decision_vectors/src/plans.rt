//! Cases of `todo_plan`.

use crate::graphs::graph_with_subjects;
use cases::{Answer, Case, CaseFault, put_line};
use seq_base::{Bytes, Id};
use std::alloc::AllocError;
use todo_plan::{PlanFault, add_exec, add_update_refs, autosquash, plan_linear, plan_merges};
use todo_text::{Line, parse_todo};

fn put_lines(case: &mut Case<'_>, lines: &[Line]) -> Result<(), CaseFault> {
    case.out.counted(b"lines", lines.len() as u64)?;
    for line in lines {
        put_line(&mut case.out, line)?;
    }
    Ok(())
}

fn ids(case: &mut Case<'_>) -> Result<Vec<Id>, CaseFault> {
    let mut ids = Vec::new(case.alloc);
    for _ in 0..case.fields.len() {
        ids.push(case.fields.id()?)?;
    }
    Ok(ids)
}

/// A graph with subjects and a range: the lines of its todo.
pub fn linear(case: &mut Case<'_>) -> Result<(), CaseFault> {
    let graph = graph_with_subjects(case)?;
    let range = ids(case)?;
    if graph.missing(&range).is_some() {
        return Err(CaseFault::Value);
    }
    let lines = plan_linear(case.alloc, &graph, &range)?;
    put_lines(case, &lines)
}

/// A graph with subjects and a range: the lines of its todo, with each commit that asks for it behind its target.
pub fn squashes(case: &mut Case<'_>) -> Result<(), CaseFault> {
    let graph = graph_with_subjects(case)?;
    let range = ids(case)?;
    if graph.missing(&range).is_some() {
        return Err(CaseFault::Value);
    }
    let lines = plan_linear(case.alloc, &graph, &range)?;
    let lines = autosquash(case.alloc, lines, &graph)?;
    put_lines(case, &lines)
}

fn put_fault(out: &mut Answer, fault: PlanFault) -> Result<(), AllocError> {
    match fault {
        PlanFault::Octopus { id } => {
            out.word(b"octopus")?;
            out.id(id)
        }
        PlanFault::NewRoot { id } => {
            out.word(b"new-root")?;
            out.id(id)
        }
        PlanFault::Memory => Err(AllocError),
    }
}

/// A graph with subjects, a base and a range: the lines of its todo, or why there is none.
pub fn merges(case: &mut Case<'_>) -> Result<(), CaseFault> {
    let graph = graph_with_subjects(case)?;
    let base = case.fields.id()?;
    let range = ids(case)?;
    if graph.missing(&range).is_some() {
        return Err(CaseFault::Value);
    }
    match plan_merges(case.alloc, &graph, &range, base) {
        Ok(lines) => put_lines(case, &lines),
        Err(fault) => {
            put_fault(&mut case.out, fault)?;
            Ok(())
        }
    }
}

/// A todo and commands: the lines with these behind each group.
pub fn execs(case: &mut Case<'_>) -> Result<(), CaseFault> {
    let Ok(lines) = parse_todo(case.alloc, case.fields.bytes()?, false) else {
        return Err(CaseFault::Value)
    };
    let mut commands: Vec<Bytes> = Vec::new(case.alloc);
    for _ in 0..case.fields.len() {
        commands.push(case.fields.owned()?)?;
    }
    let all = add_exec(case.alloc, lines, &commands)?;
    put_lines(case, &all)
}

/// A todo and branches, each a name and a commit: the lines with their update-ref lines.
pub fn update_refs(case: &mut Case<'_>) -> Result<(), CaseFault> {
    let Ok(lines) = parse_todo(case.alloc, case.fields.bytes()?, false) else {
        return Err(CaseFault::Value)
    };
    let mut refs: Vec<(Bytes, Id)> = Vec::new(case.alloc);
    for _ in 0..case.fields.len() / 2 {
        let name = case.fields.owned()?;
        refs.push((name, case.fields.id()?))?;
    }
    let all = add_update_refs(case.alloc, lines, &refs)?;
    put_lines(case, &all)
}
