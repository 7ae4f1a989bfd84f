//! Reads cases from standard input, one a line, and prints how each invocation ends, what it prints, and which files it changes:
//! line N of what is printed answers line N. A line that is empty or begins with `#` is printed as it is.
#![tactic(auto)]

mod runs;

use cases::answer_line;
use runs::RunVerbs;
use std::io::{self, BufRead, BufReader, BufWriter, Write};

fn main(rt: HostRuntime) -> io::Result<()> {
    let alloc = rt.alloc();
    let mut out = BufWriter::new(alloc, io::writer(&rt))?;
    for line in BufReader::new(alloc, rt.reader())?.lines(alloc) {
        let line = line?;
        let answer = answer_line(alloc, &RunVerbs, line.as_bytes())?;
        out.write_all(answer.as_slice())?;
        out.write_all(b"\n")?;
    }
    out.flush()
}
