//! A spawner in memory.

ghost use Rattle.std.specs.Prelude.{◌≡◌, []};
ghost use Rattle.seq_memory.specs.Children.{WriteStorePaths};

use crate::answer::{Answer, Noted};
use crate::children::{copy_of_job, make_writes, note_job};
use seq_outside::{ChildError, Exit, Job, Spawner, Store};
use std::alloc::Global;
use std::marker::Model;

/// Runs each child by the next answer of a list: it makes the writes by `put` and `remove` of the store, passes over one that is
/// refused, and answers the exit. It passes over `fails`, and a call past the list answers `Code(0)`. So it never fails. Contracts
/// see the answers still to come, the jobs and the log.
#[derive(Debug, Drop)]
pub struct QuietSpawner {
    answers: Vec<Answer>,
    next: usize,
    jobs: Vec<Job>,
    log: Vec<Noted>,
}

impl Model for QuietSpawner {
    ghost use Rattle.std.specs.Prelude.{◌≤◌, drop, length};
    ghost use Rattle.seq_memory.specs.Children.{Script, WriteStorePaths};

    ghost Value = { Script };

    ghost view = { λ spawner. record { coming = drop spawner.next spawner.answers.items; jobs = spawner.jobs.items; log = spawner.log.items } };

    ghost invariant = { λ spawner. WriteStorePaths spawner.answers.items };
}

impl QuietSpawner {
    pub fn new(answers: Vec<Answer>) -> QuietSpawner
        requires { WriteStorePaths answers.items }
        ensures { result ≡ record { coming = answers.items; jobs = []; log = [] } }
    {
        let alloc = *answers.allocator();
        QuietSpawner {
            answers,
            next: 0,
            jobs: Vec::new(alloc),
            log: Vec::new(alloc),
        }
    }

    /// The jobs, as they were handed in.
    pub fn jobs(&self) -> &[Job]
        ensures { result.now ≡ self.now.jobs }
    {
        &self.jobs
    }

    /// The start and the end of each job.
    pub fn log(&self) -> &[Noted]
        ensures { result.now ≡ self.now.log }
    {
        &self.log
    }
}

impl<S: Store> Spawner<S> for QuietSpawner {
    ghost use Rattle.seq_memory.specs.Children.{RunsNext};

    ghost ran = { λ before child after. RunsNext S.told before child after };

    ghost seen = { λ _. record { faults = 0; lender = 0 } };

    fn run(&mut self, alloc: Global, store: &mut S, job: &Job) -> Result<Exit, ChildError> {
        let Ok(job) = copy_of_job(alloc, job) else {
            return Err(ChildError::Memory);
        };
        let Ok(()) = note_job(&mut self.jobs, &mut self.log, job) else {
            return Err(ChildError::Memory);
        };
        if self.next >= self.answers.len() {
            return Ok(Exit::Code(0));
        }
        let answer = &self.answers[self.next];
        self.next += 1;
        match make_writes(alloc, store, answer.writes.as_slice()) {
            Ok(()) => Ok(answer.exit),
            Err(_) => Err(ChildError::Memory),
        }
    }
}
