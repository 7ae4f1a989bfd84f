//! Prints the refs of the repository below whose root it runs, as `git for-each-ref --format='%(objectname) %(refname)'` does. It is no
//! part of the product: tests and benchmarks ask it what `ref_store::list` answers.
#![tactic(auto)]

ghost use Rattle.seq_base.specs.StorePaths.{IsStorePath};

use ref_store::{RefFault, list};
use seq_base::{Bytes, Id};
use seq_disk::{DiskStore, StdoutSink};
use seq_outside::{Halt, Sink};
use std::alloc::{AllocError, Global};
use std::process::ExitCode;

fn put_line(text: &mut Vec<u8>, alloc: Global, named: &(Bytes, Id)) -> Result<(), AllocError> {
    let digits = named.1.hex(alloc)?;
    text.extend_from_slice(&digits)?;
    text.push(b' ')?;
    text.extend_from_slice(named.0.as_slice())?;
    text.push(b'\n')?;
    Ok(())
}

fn text_of(alloc: Global, refs: &[(Bytes, Id)]) -> Result<Vec<u8>, AllocError> {
    let mut text = Vec::new(alloc);
    for named in refs {
        put_line(&mut text, alloc, named)?;
    }
    Ok(text)
}

fn listed(rt: &HostRuntime) -> Result<Vec<u8>, Halt<RefFault>> {
    let alloc = rt.alloc();
    let mut store = DiskStore::new(rt);
    let refs = list(alloc, &mut store, b"refs")?;
    let text = text_of(alloc, &refs)?;
    Ok(text)
}

fn is_printed(rt: &HostRuntime) -> bool {
    match listed(rt) {
        Ok(text) => StdoutSink::new(rt.stdout()).write(&text).is_ok(),
        Err(_) => false,
    }
}

fn main(rt: HostRuntime) -> ExitCode {
    if is_printed(&rt) {
        ExitCode::SUCCESS
    } else {
        ExitCode::FAILURE
    }
}
