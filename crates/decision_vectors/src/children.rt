//! Cases of `child_jobs` and of the commands of `driver_pool`.

use cases::{Answer, Case, CaseFault};
use child_jobs::{editor, editor_job, exec_job, hook_job};
use config_text::{Config, LineFault, parse_config};
use driver_pool::command;
use seq_base::Bytes;
use seq_outside::{Env, Job, Variables};
use std::alloc::{AllocError, Global};

fn put_job(out: &mut Answer, job: &Job) -> Result<(), AllocError> {
    let words = job.words.as_slice();
    out.counted(b"job", words.len() as u64)?;
    for word in words {
        out.bytes(word.as_slice())?;
    }
    out.bytes(job.input.as_slice())
}

/// COMMAND
pub fn exec(case: &mut Case<'_>) -> Result<(), CaseFault> {
    let job = exec_job(case.alloc, case.fields.bytes()?)?;
    put_job(&mut case.out, &job)?;
    Ok(())
}

/// EDITOR PATH
pub fn edit(case: &mut Case<'_>) -> Result<(), CaseFault> {
    let editor = case.fields.bytes()?;
    let job = editor_job(case.alloc, editor, case.fields.bytes()?)?;
    put_job(&mut case.out, &job)?;
    Ok(())
}

/// NAME INPUT, and the arguments.
pub fn hook(case: &mut Case<'_>) -> Result<(), CaseFault> {
    let name = case.fields.bytes()?;
    let input = case.fields.bytes()?;
    let mut arguments = Vec::new(case.alloc);
    for _ in 0..case.fields.len() {
        arguments.push(case.fields.owned()?)?;
    }
    let job = hook_job(case.alloc, name, &arguments, input)?;
    put_job(&mut case.out, &job)?;
    Ok(())
}

fn config_of(alloc: Global, text: &[u8]) -> Result<Config, CaseFault> {
    match parse_config(alloc, text) {
        Ok(config) => Ok(config),
        Err(LineFault::Bad { .. }) => Err(CaseFault::Value),
        Err(LineFault::Memory) => Err(CaseFault::Memory),
    }
}

/// Whether the editor of a todo is asked for, the text of a configuration, and variables, each a name and a value.
pub fn editor_set(case: &mut Case<'_>) -> Result<(), CaseFault> {
    let todo = case.fields.yes_or_no()?;
    let config = config_of(case.alloc, case.fields.bytes()?)?;
    let mut variables = Vec::new(case.alloc);
    for _ in 0..case.fields.len() / 2 {
        let name: Bytes = case.fields.owned()?;
        variables.push((name, case.fields.owned()?))?;
    }
    let env = Env {
        vars: Variables::from_vec(variables),
        zone: *b"+0000",
    };
    match editor(case.alloc, &config, &env, todo)? {
        Some(text) => case.out.named(b"editor", &text)?,
        None => case.out.word(b"none")?,
    }
    Ok(())
}

/// TEMPLATE PATH NUMBER
pub fn driver(case: &mut Case<'_>) -> Result<(), CaseFault> {
    let template = case.fields.bytes()?;
    let path = case.fields.path()?;
    let number = case.fields.number()?;
    case.out
        .bytes(&command(case.alloc, template, &path, number)?)?;
    Ok(())
}
