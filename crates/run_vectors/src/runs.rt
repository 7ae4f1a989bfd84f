//! Invocations over a store in memory.

ghost use Rattle.seq_outside.specs.Env.{IsZone};
ghost use Rattle.std.specs.Prelude.{IfOk};

use cases::{Case, CaseFault, Verbs, files_of, put_changes};
use seq_base::Bytes;
use seq_memory::{ListClock, QuietSink, QuietSpawner, QuietStore};
use seq_outside::{Env, Variables};
use seq_top::run;

/// The one verb, `run`.
pub struct RunVerbs;

impl Verbs for RunVerbs {
    fn answer(&self, verb: &str, case: &mut Case<'_>) -> Result<bool, CaseFault> {
        if verb != "run" {
            return Ok(false);
        }
        invocation(case)?;
        Ok(true)
    }
}

/// COUNT, and as many variables, each a name and a value. The zone is UTC.
fn environment(case: &mut Case<'_>) -> Result<Env, CaseFault>
    ensures { IfOk result (λ env. IsZone env.zone) }
{
    let count = case.fields.number()?;
    let mut vars = Vec::new(case.alloc);
    for _ in 0..count {
        let name = case.fields.owned()?;
        let value = case.fields.owned()?;
        vars.push((name, value))?;
    }
    Ok(Env {
        vars: Variables::from_vec(vars),
        zone: *b"+0000",
    })
}

/// COUNT, and as many moments, which the clock tells.
fn clock(case: &mut Case<'_>) -> Result<ListClock, CaseFault> {
    let count = case.fields.number()?;
    let mut moments = Vec::new(case.alloc);
    for _ in 0..count {
        match i64::try_from(case.fields.number()?) {
            Ok(moment) => moments.push(moment)?,
            Err(_) => return Err(CaseFault::Form),
        }
    }
    Ok(ListClock::new(moments))
}

/// The words that are left.
fn words(case: &mut Case<'_>) -> Result<Vec<Bytes>, CaseFault> {
    let mut words = Vec::new(case.alloc);
    for _ in 0..case.fields.len() {
        words.push(case.fields.owned()?)?;
    }
    Ok(words)
}

/// Files, variables, moments and words: the exit status, what is printed, and the files that are changed.
fn invocation(case: &mut Case<'_>) -> Result<(), CaseFault> {
    let files = files_of(case)?;
    let env = environment(case)?;
    let mut clock = clock(case)?;
    let words = words(case)?;
    let mut store = QuietStore::new(case.alloc, &files)?;
    let mut spawner = QuietSpawner::new(Vec::new(case.alloc));
    let mut out = QuietSink::new(case.alloc)?;
    let status = run(
        case.alloc,
        &words,
        &env,
        &mut store,
        &mut spawner,
        &mut clock,
        &mut out,
    );
    case.out.counted(b"status", u64::from(status))?;
    case.out.bytes(out.bytes())?;
    put_changes(case.alloc, &mut case.out, &files, store.content())?;
    Ok(())
}
