//! A spawner in memory whose calls may fail.

ghost use Rattle.std.specs.Prelude.{◌≡◌, []};
ghost use Rattle.seq_memory.specs.Children.{WriteStorePaths};

use crate::answer::{Answer, Noted};
use crate::children::{copy_of_job, make_writes, note_job};
use seq_outside::{ChildError, Exit, Job, Spawner, Store};
use std::alloc::Global;
use std::marker::Model;

/// Runs each child by the next answer of a list: it makes the writes by `put` and `remove` of the store, passes over one that is
/// refused, and answers the exit. An answer that `fails` makes its call fail with nothing written, and so does a call past the
/// list. Contracts see the answers still to come, the jobs, the log, and how often it has failed.
#[derive(Debug, Drop)]
pub struct ScriptSpawner {
    answers: Vec<Answer>,
    next: usize,
    jobs: Vec<Job>,
    log: Vec<Noted>,
    faults: u64,
}

impl Model for ScriptSpawner {
    ghost use Rattle.std.specs.Prelude.{drop};
    ghost use Rattle.seq_memory.specs.Children.{FailingScript, WriteStorePaths};

    ghost Value = { FailingScript };

    ghost view = { λ spawner. record {
      script = record { coming = drop spawner.next spawner.answers.items; jobs = spawner.jobs.items; log = spawner.log.items };
      faults = spawner.faults;
    } };

    ghost invariant = { λ spawner. WriteStorePaths spawner.answers.items };
}

impl ScriptSpawner {
    pub fn new(answers: Vec<Answer>) -> ScriptSpawner
        requires { WriteStorePaths answers.items }
        ensures { result ≡ record { script = record { coming = answers.items; jobs = []; log = [] }; faults = 0 } }
    {
        let alloc = *answers.allocator();
        ScriptSpawner {
            answers,
            next: 0,
            jobs: Vec::new(alloc),
            log: Vec::new(alloc),
            faults: 0,
        }
    }

    /// The jobs, as they were handed in.
    pub fn jobs(&self) -> &[Job]
        ensures { result.now ≡ self.now.script.jobs }
    {
        &self.jobs
    }

    /// The start and the end of each job.
    pub fn log(&self) -> &[Noted]
        ensures { result.now ≡ self.now.script.log }
    {
        &self.log
    }
}

impl<S: Store> Spawner<S> for ScriptSpawner {
    ghost use Rattle.seq_memory.specs.Children.{RunsScripted};

    ghost ran = { λ before child after. RunsScripted S.told before child after };

    ghost seen = { λ spawner. record { faults = spawner.faults; lender = 0 } };

    fn run(&mut self, alloc: Global, store: &mut S, job: &Job) -> Result<Exit, ChildError> {
        let Ok(job) = copy_of_job(alloc, job) else {
            return Err(ChildError::Memory);
        };
        let Ok(()) = note_job(&mut self.jobs, &mut self.log, job) else {
            return Err(ChildError::Memory);
        };
        if self.next >= self.answers.len() {
            self.faults = self.faults.saturating_add(1);
            return Err(ChildError::Failed);
        }
        let answer = &self.answers[self.next];
        self.next += 1;
        if answer.fails {
            self.faults = self.faults.saturating_add(1);
            return Err(ChildError::Failed);
        }
        match make_writes(alloc, store, answer.writes.as_slice()) {
            Ok(()) => Ok(answer.exit),
            Err(_) => Err(ChildError::Memory),
        }
    }
}
