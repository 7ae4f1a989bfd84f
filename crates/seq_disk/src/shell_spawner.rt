//! Children of the system.

use crate::disk_store::DiskStore;
use seq_base::Bytes;
use seq_outside::{ChildError, Exit, Job, Spawner};
use std::alloc::Global;
use std::io::{self, Write};
use std::process::{Command, ExitStatus, Processes, Stdio};
use std::rt::Files;

/// Runs a job's words in the folder that the program runs in, with the program's own environment, standard output and standard
/// error. A child without input has the program's own standard input too, so an editor keeps its terminal. It does not tell what
/// children do.
#[derive(Drop)]
pub struct ShellSpawner<'a, R: Processes> {
    rt: &'a R,
    faults: u64,
}

impl<'a, R: Processes> ShellSpawner<'a, R> {
    pub fn new(rt: &'a R) -> ShellSpawner<'a, R> {
        ShellSpawner { rt, faults: 0 }
    }
}

impl<'a, 'b, R: Processes, F: Files + AllocGlobal + Clone + Drop> Spawner<DiskStore<'b, F>>
    for ShellSpawner<'a, R> {
    ghost ran = { λ _ _ _. Unit {0} };

    ghost seen = { λ spawner. record { faults = spawner.faults; lender = 0 } };

    fn run(
        &mut self,
        alloc: Global,
        store: &mut DiskStore<'b, F>,
        job: &Job,
    ) -> Result<Exit, ChildError> {
        store.forget_folders();
        match run_job(self.rt, alloc, job) {
            Ok(exit) => Ok(exit),
            Err(error) if error.kind() == io::ErrorKind::OutOfMemory => Err(ChildError::Memory),
            Err(_) => {
                self.faults = self.faults.saturating_add(1);
                Err(ChildError::Failed)
            }
        }
    }
}

/// Starts the job's child and waits for it. A word that is not text cannot be handed over.
fn run_job<R: Processes>(rt: &R, alloc: Global, job: &Job) -> io::Result<Exit> {
    let [program, arguments @ ..] = job.words.as_slice() else {
        return Err(io::Error::from(io::ErrorKind::InvalidInput));
    };
    let mut command = Command::new(alloc, text_of(program)?)?;
    for argument in arguments {
        command.arg(text_of(argument)?)?;
    }
    let input = job.input.as_slice();
    if !input.is_empty() {
        command.stdin(Stdio::piped());
    }
    let mut child = command.spawn(rt)?;
    let handed = match &mut child.stdin {
        Some(stdin) => hand_over(stdin, input),
        None => Ok(()),
    };
    let status = child.wait()?;
    handed?;
    Ok(exit_of(status))
}

fn text_of(word: &Bytes) -> io::Result<&str> {
    match str::from_utf8(word.as_slice()) {
        Ok(text) => Ok(text),
        Err(_) => Err(io::Error::from(io::ErrorKind::InvalidInput)),
    }
}

/// Writes what a child is to read. It need not read it.
fn hand_over<W: Write>(stdin: &mut W, input: &[u8]) -> io::Result<()> {
    match stdin.write_all(input) {
        Err(error) if error.kind() == io::ErrorKind::BrokenPipe => Ok(()),
        written => written,
    }
}

/// A child that a signal ended has no code.
fn exit_of(status: ExitStatus) -> Exit {
    match status.code() {
        Some(code) => Exit::Code(code.to_le_bytes()[0]),
        None => Exit::Killed,
    }
}
