//! Reads cases from standard input, one a line, and prints what `state_text` and `state_found` answer: line N of what is printed answers
//! line N. A case is a verb and its fields. A line that is empty or begins with `#` is printed as it is.
#![tactic(auto)]

mod controls;
mod found;
mod states;
mod told;
mod verbs;
mod words;

use cases::answer_line;
use std::io::{self, BufRead, BufReader, BufWriter, Write};
use verbs::StateVerbs;

fn main(rt: HostRuntime) -> io::Result<()> {
    let alloc = rt.alloc();
    let mut out = BufWriter::new(alloc, io::writer(&rt))?;
    for line in BufReader::new(alloc, rt.reader())?.lines(alloc) {
        let line = line?;
        let answer = answer_line(alloc, &StateVerbs, line.as_bytes())?;
        out.write_all(answer.as_slice())?;
        out.write_all(b"\n")?;
    }
    out.flush()
}
