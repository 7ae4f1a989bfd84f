//! Reads cases from standard input, one a line, and prints what the crates over a store answer, and which files they change: line N
//! of what is printed answers line N. A case is a verb, the files that a store in memory holds, and the fields of the call. A line
//! that is empty or begins with `#` is printed as it is.
#![tactic(auto)]

mod faults;
mod held_objects;
mod histories;
mod paths;
mod refs;
mod revs;
mod trees;
mod verbs;

use cases::answer_line;
use std::io::{self, BufRead, BufReader, BufWriter, Write};
use verbs::StoreVerbs;

fn main(rt: HostRuntime) -> io::Result<()> {
    let alloc = rt.alloc();
    let mut out = BufWriter::new(alloc, io::writer(&rt))?;
    for line in BufReader::new(alloc, rt.reader())?.lines(alloc) {
        let line = line?;
        let answer = answer_line(alloc, &StoreVerbs, line.as_bytes())?;
        out.write_all(answer.as_slice())?;
        out.write_all(b"\n")?;
    }
    out.flush()
}
