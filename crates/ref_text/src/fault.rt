//! Why bytes were not read.

ghost use Rattle.std.specs.Prelude.{◌≡◌, ◌≤◌, ◌-◌, length};
ghost use Rattle.grammar.specs.Lines.{line_of_place as line_at};

use grammar::line_of_place;
use thiserror::Error;

/// Why bytes are no HEAD.
#[derive(Clone, Copy, Debug, PartialEq, Eq, Drop, Error)]
pub enum HeadFault {
    #[error("HEAD names neither a branch nor a commit")]
    Bad,
    #[error("out of memory")]
    Memory,
}

/// Why lines were not read.
#[derive(Clone, Copy, Debug, PartialEq, Eq, Drop, Error)]
pub enum LineFault {
    /// The first line, counted from 1, with which no text of the format goes on, or the last one where the lines end too early.
    #[error("line {line} may not stand there")]
    Bad { line: u64 },
    #[error("out of memory")]
    Memory,
}

/// The line at which a reader stopped that had so many bytes left.
pub(crate) fn bad_line(text: &[u8], left: usize) -> LineFault
    requires { left ≤ length text.now }
    ensures { result ≡ LineFault.Bad (line_at (length text.now - left) text.now) }
{
    LineFault::Bad {
        line: line_of_place(text, text.len() - left),
    }
}
