//! One invocation.

ghost use Rattle.std.specs.Prelude.{◌≡◌, ◌≢◌};
ghost use Rattle.seq_model.specs.Status.{status_of};
ghost use Rattle.seq_outside.specs.Causes.{Rose};
ghost use Rattle.seq_outside.specs.Env.{IsZone};
ghost use Rattle.seq_model.specs.Report.{report_of};
ghost use Rattle.seq_top.specs.Answers.{Answers, FitsJudged, Prints, is_done as is_done_of, outside, text_of};

use crate::judging::{Judged, judge};
use report_text::report;
use seq_base::Bytes;
use seq_model::Outcome;
use seq_outside::{Clock, Env, Sink, SinkError, Spawner, Store};
use std::alloc::Global;

/// Prints a text with which an outcome is told.
#[tactic(auto, using(crate::proofs::Printed::prints_all))]
fn put<O: Sink>(outcome: Outcome, text: &[u8], out: &mut O) -> Outcome
    ensures fits { FitsJudged result outcome }
    ensures prints { O.told → Prints result text.now (O.bytes out.old) (O.bytes out.new) }
    ensures cause { result ≡ Outcome.OutputFault → outcome ≢ Outcome.OutputFault → Rose (O.faults out.old) (O.faults out.new) }
{
    match out.write(text) {
        Ok(()) => outcome,
        Err(SinkError::Failed) => Outcome::OutputFault,
        Err(SinkError::Memory) => Outcome::Memory,
    }
}

fn is_done(outcome: &Outcome) -> bool
    ensures { result ≡ is_done_of outcome.now }
{
    match outcome {
        Outcome::Done { .. } => true,
        Outcome::Stopped { .. }
        | Outcome::Usage(_)
        | Outcome::Refused(_)
        | Outcome::StoreFault
        | Outcome::ChildFault
        | Outcome::OutputFault
        | Outcome::Limit { .. }
        | Outcome::Memory => false,
    }
}

/// Prints the report.
fn print_report<O: Sink>(alloc: Global, outcome: Outcome, out: &mut O) -> Outcome
    ensures fits { FitsJudged result outcome }
    ensures prints { O.told → Prints result (report_of outcome) (O.bytes out.old) (O.bytes out.new) }
    ensures cause { result ≡ Outcome.OutputFault → outcome ≢ Outcome.OutputFault → Rose (O.faults out.old) (O.faults out.new) }
{
    let Ok(text) = report(alloc, &outcome) else {
        return Outcome::Memory;
    };
    put(outcome, &text, out)
}

/// Prints what is told of what was judged.
fn print<O: Sink>(alloc: Global, judged: Judged, out: &mut O) -> Outcome
    ensures fits { FitsJudged result judged.outcome }
    ensures prints { O.told → Prints result (text_of judged.tells judged.outcome judged.own) (O.bytes out.old) (O.bytes out.new) }
    ensures cause { result ≡ Outcome.OutputFault → judged.outcome ≢ Outcome.OutputFault → Rose (O.faults out.old) (O.faults out.new) }
{
    if is_done(&judged.outcome) && judged.tells {
        return put(judged.outcome, judged.own.as_slice(), out);
    }
    print_report(alloc, judged.outcome, out)
}

/// Handles one invocation and prints its report, or in its place what the command prints itself.
pub fn invoke<S: Store, P: Spawner<S>, C: Clock, O: Sink>(
    alloc: Global,
    words: &[Bytes],
    env: &Env,
    store: &mut S,
    spawner: &mut P,
    clock: &mut C,
    out: &mut O,
) -> Outcome
    requires { IsZone env.now.zone }
    ensures answers { Answers S.told O.told C.ticked words.now env.now
        (outside (S.seen store.old) clock.old (O.bytes out.old) (O.faults out.old))
        (outside (S.seen store.new) clock.new (O.bytes out.new) (O.faults out.new))
        result }
    ensures no_child { spawner.new ≡ spawner.old }
{
    let judged = judge(alloc, words, env, store, clock);
    print(alloc, judged, out)
}

/// All that the program does: `invoke`, and the exit status of its outcome.
pub fn run<S: Store, P: Spawner<S>, C: Clock, O: Sink>(
    alloc: Global,
    words: &[Bytes],
    env: &Env,
    store: &mut S,
    spawner: &mut P,
    clock: &mut C,
    out: &mut O,
) -> u8
    requires { IsZone env.now.zone }
    ensures answers { (outcome : Outcome) × (result ≡ status_of outcome) × Answers S.told O.told C.ticked words.now env.now
        (outside (S.seen store.old) clock.old (O.bytes out.old) (O.faults out.old))
        (outside (S.seen store.new) clock.new (O.bytes out.new) (O.faults out.new))
        outcome }
    ensures no_child { spawner.new ≡ spawner.old }
{
    invoke(alloc, words, env, store, spawner, clock, out).status()
}
