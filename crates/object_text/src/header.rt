//! The lines of a commit, from the front of bytes.

ghost use Rattle.std.specs.Prelude.{◌≡◌, ℕ, List, [], ◌∷◌, ◌++◌, Bool, true, false, not, ◌&&◌, ◌||◌, ◌==◌, length, codes, IfOk, ◌<◌};
ghost use Rattle.std.specs.List.{list_all};
ghost use Rattle.grammar.specs.Gives.{Gives};
ghost use Rattle.grammar.specs.Readers.{begins};
ghost use Rattle.object_text.specs.Commits.{is_in_line, is_continuation as continues};
ghost use Rattle.object_text.specs.ReadCommits.{tree_line_from, parent_line_from, author_line_from, committer_line_from, may_header, header_value, header_from, is_p};

use grammar::{ReadError, Scan, behind_literal, span_of};
use ident_text::{id_of, ident_text_of};
use seq_base::Id;

/// The id of the tree, from the first line.
#[tactic(auto, unfolding(crate::specs::ReadCommits::tree_line_from))]
pub fn tree_line_of(bytes: &[u8]) -> Result<(Id, &[u8]), ReadError>
    ensures { Gives (λ x. (x.0, x.1.now)) result (tree_line_from bytes.now) }
{
    let rest = behind_literal(b"tree ", bytes)?;
    match id_of(rest) {
        Ok((id, rest)) => Ok((id, behind_literal(b"\n", rest)?)),
        Err(e) => Err(e),
    }
}

/// The id of a parent.
#[tactic(auto, unfolding(crate::specs::ReadCommits::parent_line_from))]
pub fn parent_line_of(bytes: &[u8]) -> Result<(Id, &[u8]), ReadError>
    ensures { Gives (λ x. (x.0, x.1.now)) result (parent_line_from bytes.now) }
{
    let rest = behind_literal(b"parent ", bytes)?;
    match id_of(rest) {
        Ok((id, rest)) => Ok((id, behind_literal(b"\n", rest)?)),
        Err(e) => Err(e),
    }
}

/// The author.
#[tactic(auto, unfolding(crate::specs::ReadCommits::author_line_from))]
pub fn author_line_of(bytes: &[u8]) -> Result<(&[u8], &[u8]), ReadError>
    ensures { Gives (λ x. (x.0.now, x.1.now)) result (author_line_from bytes.now) }
{
    let rest = behind_literal(b"author ", bytes)?;
    let (ident, rest) = ident_text_of(rest)?;
    let rest = behind_literal(b"\n", rest)?;
    Ok((ident, rest))
}

/// The committer.
#[tactic(auto, unfolding(crate::specs::ReadCommits::committer_line_from))]
pub fn committer_line_of(bytes: &[u8]) -> Result<(&[u8], &[u8]), ReadError>
    ensures { Gives (λ x. (x.0.now, x.1.now)) result (committer_line_from bytes.now) }
{
    let rest = behind_literal(b"committer ", bytes)?;
    let (ident, rest) = ident_text_of(rest)?;
    let rest = behind_literal(b"\n", rest)?;
    Ok((ident, rest))
}

/// Whether a line with a parent stands there.
pub fn has_parent(bytes: &[u8]) -> bool
    ensures { result ≡ begins is_p bytes.now }
{
    match bytes {
        [] => false,
        [b, ..] => *b == b'p',
    }
}

/// Whether a line of a header stands there.
pub fn has_header(bytes: &[u8]) -> bool
    ensures { result ≡ begins is_in_line bytes.now }
{
    match bytes {
        [] => false,
        [b, ..] => *b != b'\n',
    }
}

/// Whether the line continues the header before it.
pub fn is_continuation(line: &[u8]) -> bool
    ensures { result ≡ continues line.now }
{
    match line {
        [] => false,
        [b, ..] => *b == b' ',
    }
}

#[derive(Drop)]
struct HeaderScan {
    /// Whether a header stands before the line.
    behind: bool,
}

impl Scan for HeaderScan {
    ghost may = { λ s front. may_header s.behind front };

    ghost has_seen = { λ s seen. may_header s.behind seen ≡ true };

    fn goes_on(&mut self, front: &[u8]) -> bool {
        goes_on_in_line(self.behind, front)
    }
}

/// Whether a line of a header that goes up to the last byte goes on with it.
fn goes_on_in_line(behind: bool, front: &[u8]) -> bool
    requires { 0 < length front.now }
    ensures { (seen : List ℕ) (b : ℕ) → may_header behind seen ≡ true → front.now ≡ seen ++ b ∷ [] → result ≡ may_header behind front.now }
{
    front[front.len() - 1] != b'\n' && (behind || !is_continuation(front))
}

/// A line of a header, which may continue another only behind one.
pub fn header_of(behind: bool, bytes: &[u8]) -> Result<(&[u8], &[u8]), ReadError>
    ensures { Gives (λ x. (x.0.now, x.1.now)) result (header_from behind bytes.now) }
{
    let mut scan = HeaderScan { behind };
    let (line, rest) = span_of(&mut scan, b'\n', bytes)?;
    if line.is_empty() {
        return Err(ReadError::Stopped {
            left: rest.len() + 1,
        });
    }
    Ok((line, rest))
}
