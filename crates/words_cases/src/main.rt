//! Reads lines of words from standard input, and prints behind each what it asks for. Empty lines and lines that begin with
//! `#` are printed as they are.
#![tactic(auto)]

mod answer;
mod line;

use seq_base::Bytes;
use seq_words::read_words;
use std::alloc::{AllocError, Global};
use std::io::{self, Write};

fn is_passed_over(line: &[u8]) -> bool {
    match line {
        [] => true,
        [first, ..] => *first == b'#',
    }
}

/// The words of the line, and behind them what they ask for.
fn answered(alloc: Global, line: &[u8]) -> Result<Vec<u8>, AllocError> {
    if is_passed_over(line) {
        return Vec::from_slice(alloc, line);
    }
    let front = line::front(line);
    let words: Vec<Bytes> = line::words(alloc, front)?;
    let mut text = Vec::from_slice(alloc, front)?;
    text.extend_from_slice(b" => ")?;
    answer::push_answer(&mut text, &read_words(alloc, &words))?;
    Ok(text)
}

fn main(rt: HostRuntime) -> io::Result<()> {
    let alloc = rt.alloc();
    let mut out = io::writer(&rt);
    for line in rt.lines(alloc) {
        let line = line?;
        let mut text = answered(alloc, line.as_bytes())?;
        text.push(b'\n')?;
        out.write_all(&text)?;
    }
    Ok(())
}
