//! Plans the todo of a rebase in the repository below whose root it runs, and prints how many lines it has: its words are `range`, `picks`,
//! `squashes` or `merges`, the upstream and the tip, each an id. With `range` nothing is planned, and it prints how many commits there are. It
//! is no part of the product: benchmarks ask it how long todo_plan's calls take.
#![tactic(auto)]

use history::{load, range};
use merge_base::Graph;
use seq_base::{Bytes, Id};
use seq_disk::{DiskStore, StdoutSink};
use seq_outside::Sink;
use std::alloc::Global;
use std::process::ExitCode;
use todo_plan::{autosquash, plan_linear, plan_merges};

fn id_of(text: &[u8]) -> Option<Id> {
    match Id::from_hex(text) {
        Ok(id) => Some(id),
        Err(_) => None,
    }
}

/// How many lines are planned.
fn count_of(alloc: Global, what: &[u8], graph: &Graph, ids: &[Id], base: Id) -> Option<usize> {
    if graph.missing(ids).is_some() {
        return None;
    }
    if what == b"range".as_slice() {
        return Some(ids.len());
    }
    if what == b"merges".as_slice() {
        let lines = plan_merges(alloc, graph, ids, base).ok()?;
        return Some(lines.len());
    }
    let lines = plan_linear(alloc, graph, ids).ok()?;
    if what == b"picks".as_slice() {
        return Some(lines.len());
    }
    let lines = autosquash(alloc, lines, graph).ok()?;
    Some(lines.len())
}

fn told(rt: &HostRuntime) -> Option<Vec<u8>> {
    let alloc = rt.alloc();
    let words = seq_disk::words(alloc, rt).ok()?;
    let [what, upstream, tip] = words.as_slice() else {
        return None;
    };
    let upstream = id_of(upstream.as_slice())?;
    let tip = id_of(tip.as_slice())?;
    let mut store = DiskStore::new(rt);
    let graph = load(alloc, &mut store, &[tip, upstream]).ok()?;
    if graph.missing(&[upstream, tip]).is_some() {
        return None;
    }
    let ids = range(alloc, &graph, &[upstream], &[tip]).ok()?;
    let count = count_of(alloc, what.as_slice(), &graph, &ids, upstream)?;
    let line = format!(in alloc; "{count}\n").ok()?;
    Some(line.into_bytes())
}

fn is_printed(rt: &HostRuntime) -> bool {
    match told(rt) {
        Some(line) => StdoutSink::new(rt.stdout()).write(&line).is_ok(),
        None => false,
    }
}

fn main(rt: HostRuntime) -> ExitCode {
    if is_printed(&rt) {
        ExitCode::SUCCESS
    } else {
        ExitCode::FAILURE
    }
}
