//! Reads cases from standard input, one a line, and prints what the crates that decide answer: line N of what is printed answers
//! line N. A case is a verb and its fields. A line that is empty or begins with `#` is printed as it is.
#![tactic(auto)]

mod attributes;
mod children;
mod graphs;
mod merges;
mod outcomes;
mod plans;
mod refusals;
mod stages;
mod stops;
mod verbs;

use cases::answer_line;
use std::io::{self, BufRead, BufReader, BufWriter, Write};
use verbs::DecisionVerbs;

fn main(rt: HostRuntime) -> io::Result<()> {
    let alloc = rt.alloc();
    let mut out = BufWriter::new(alloc, io::writer(&rt))?;
    for line in BufReader::new(alloc, rt.reader())?.lines(alloc) {
        let line = line?;
        let answer = answer_line(alloc, &DecisionVerbs, line.as_bytes())?;
        out.write_all(answer.as_slice())?;
        out.write_all(b"\n")?;
    }
    out.flush()
}
