//! The program: one invocation over the real store, clock and standard output, below the folder that it runs in.
#![tactic(auto)]

use seq_disk::{DiskStore, ShellSpawner, StdoutSink, WallClock};
use std::alloc::AllocError;
use std::process::ExitCode;

/// The exit status where no memory is left to read the words.
const OUT_OF_MEMORY: u8 = 9;

/// The exit status of an invocation.
fn status(rt: &HostRuntime) -> Result<u8, AllocError> {
    let alloc = rt.alloc();
    let words = seq_disk::words(alloc, rt)?;
    let env = seq_disk::environment(alloc, rt)?;
    let mut store = DiskStore::new(rt);
    let mut spawner = ShellSpawner::new(rt);
    let mut clock = WallClock::new(rt);
    let mut out = StdoutSink::new(rt.stdout());
    Ok(seq_top::run(
        alloc,
        &words,
        &env,
        &mut store,
        &mut spawner,
        &mut clock,
        &mut out,
    ))
}

fn main(rt: HostRuntime) -> ExitCode {
    ExitCode::from(status(&rt).unwrap_or(OUT_OF_MEMORY))
}
