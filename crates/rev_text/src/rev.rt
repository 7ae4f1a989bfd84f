//! Words that name commits, read from left to right.

ghost use Rattle.std.specs.Option.{option_map};
ghost use Rattle.std.specs.Prelude.{◌≡◌, ◌≤◌, ◌++◌, [], None, Some, codes, drop, length, take, true, IfOk};
ghost use Rattle.rev_text.specs.Revs.{GivesRev, GivesSteps, base_length as base_length_of, ends_base as ends_base_of, entry_from as entry_from_number, is_base as is_base_of, is_digit as is_digit_of, is_mark as is_mark_of, more as more_of, numbered, begun_at as begun_at_of, digit_on as digit_on_of, ended_at, with_base as with_base_of, rev_behind as rev_behind_of, rev_of, step_of as step_of_number, steps_from, with_step};

use seq_base::{Bytes, is_ref_name};
use std::alloc::{AllocError, Global};
use thiserror::Error;

/// A step from a commit to one before it.
#[derive(Clone, Copy, Debug, PartialEq, Eq, Drop)]
pub enum Step {
    /// `^N`: the Nth parent, counted from 1; 0 is the commit itself.
    Parent { number: u64 },
    /// `~N`: N times the first parent.
    Ancestor { number: u64 },
}

/// What a word that names a commit says. A number that does not fit into 64 bits is the greatest that does.
#[derive(Debug, PartialEq, Eq, Drop)]
pub struct Rev {
    /// `@` for HEAD, an id or its first digits, or the name of a ref or its end.
    pub base: Bytes,
    /// `@{N}`: the value that the ref had N entries before the last of its reflog.
    pub entry: Option<u64>,
    pub steps: Vec<Step>,
}

/// Why a word was not read.
#[derive(Clone, Copy, Debug, PartialEq, Eq, Drop, Error)]
pub enum RevTextFault {
    /// It has no form that names a commit.
    #[error("the word does not have the form of a commit's name")]
    Form,
    #[error("out of memory")]
    Memory,
}

impl From<AllocError> for RevTextFault {
    ghost use Rattle.std.specs.Prelude.{◌≡◌};
    ghost use Rattle.rev_text.specs.declared.rev.RevTextFault.TheVariants.{Memory};

    ghost from_gives = { λ _ fault. fault ≡ Memory };

    fn from(_: AllocError) -> RevTextFault {
        RevTextFault::Memory
    }
}

fn is_digit(byte: u8) -> bool
    ensures { result ≡ is_digit_of byte }
{
    b'0' <= byte && byte <= b'9'
}

fn is_mark(byte: u8) -> bool
    ensures { result ≡ is_mark_of byte }
{
    byte == b'^' || byte == b'~'
}

/// A number with a digit more.
fn more(number: Option<u64>, digit: u8) -> u64
    requires { is_digit_of digit ≡ true }
    ensures { result ≡ more_of number digit }
{
    number
        .unwrap_or(0)
        .saturating_mul(10)
        .saturating_add((digit - b'0') as u64)
}

/// Whether `^`, `~` or `@{` stands there.
fn ends_base(first: u8, after: &[u8]) -> bool
    ensures { result ≡ ends_base_of first after.now }
{
    is_mark(first) || (first == b'@' && after.starts_with(b"{"))
}

/// How many bytes stand before `^`, `~` or `@{`.
#[tactic(auto, unfolding(crate::specs::Revs::base_length))]
fn base_length(word: &[u8]) -> usize
    ensures length { result ≡ base_length_of word.now }
    ensures within { result ≤ length word.now }
{
    let mut length = 0;
    let mut rest = word;
    while let [first, after @ ..] = rest {
        if ends_base(*first, after) {
            return length;
        }
        length += 1;
        rest = after;
    }
    length
}

fn is_base(alloc: Global, base: &[u8]) -> Result<bool, AllocError>
    ensures { IfOk result (λ is. is ≡ is_base_of base.now) }
{
    if base == b"@".as_slice() {
        return Ok(true);
    }
    let mut name = b"refs/".to_vec(alloc)?;
    name.extend_from_slice(base)?;
    Ok(is_ref_name(&name))
}

/// The number up to `}`, and what stands behind that.
#[tactic(auto, unfolding(crate::specs::Revs::entry_from))]
fn entry_from(bytes: &[u8]) -> Option<(u64, &[u8])>
    ensures { option_map (λ entry. (entry.0, entry.1.now)) result ≡ entry_from_number None bytes.now }
{
    let mut number = None;
    let mut rest = bytes;
    while let [first, after @ ..] = rest {
        if *first == b'}' {
            return match number {
                Some(number) => Some((number, after)),
                None => None,
            };
        }
        if !is_digit(*first) {
            return None;
        }
        number = Some(more(number, *first));
        rest = after;
    }
    None
}

fn step_of(ancestors: bool, number: Option<u64>) -> Step
    ensures { result ≡ step_of_number ancestors number }
{
    let number = number.unwrap_or(1);
    if ancestors {
        Step::Ancestor { number }
    } else {
        Step::Parent { number }
    }
}

/// A step that was begun, and the number that was read of it so far.
#[derive(Clone, Copy, Drop)]
struct Begun {
    ancestors: bool,
    number: Option<u64>,
}

/// Puts the step that was begun behind the others.
fn end_step(steps: &mut Vec<Step>, begun: Option<Begun>) -> Result<(), AllocError>
    ensures { IfOk result (λ _. steps.new.items ≡ with_step steps.old.items begun) }
{
    if let Some(begun) = begun {
        steps.push(step_of(begun.ancestors, begun.number))?;
    }
    Ok(())
}

/// A step that was begun, with a digit more.
fn with_more(begun: Begun, digit: u8) -> Begun
    requires { is_digit_of digit ≡ true }
    ensures { result ≡ numbered begun digit }
{
    Begun {
        ancestors: begun.ancestors,
        number: Some(more(begun.number, digit)),
    }
}

fn digit_on(begun: Option<Begun>, digit: u8) -> Option<Begun>
    requires { is_digit_of digit ≡ true }
    ensures { result ≡ digit_on_of begun digit }
{
    match begun {
        Some(begun) => Some(with_more(begun, digit)),
        None => None,
    }
}

/// The step that stands begun behind a byte, if the byte may stand there.
fn begun_at(begun: Option<Begun>, byte: u8) -> Option<Begun>
    ensures { result ≡ begun_at_of begun byte }
{
    if is_mark(byte) {
        return Some(Begun {
            ancestors: byte == b'~',
            number: None,
        });
    }
    if is_digit(byte) {
        return digit_on(begun, byte);
    }
    None
}

/// Where a byte ends the step that was begun, it is put behind the others.
fn end_at(steps: &mut Vec<Step>, begun: Option<Begun>, byte: u8) -> Result<(), AllocError>
    ensures { IfOk result (λ _. steps.new.items ≡ ended_at steps.old.items begun byte) }
{
    if is_mark(byte) {
        return end_step(steps, begun);
    }
    Ok(())
}

/// Steps to the end of the text.
#[tactic(auto, unfolding(crate::specs::Revs::steps_from))]
fn steps_of(alloc: Global, bytes: &[u8]) -> Result<Vec<Step>, RevTextFault>
    ensures { GivesSteps (λ steps. steps.items) result (steps_from [] None bytes.now) }
{
    let mut steps = Vec::new(alloc);
    let mut begun = None;
    let mut rest = bytes;
    while let [first, after @ ..] = rest {
        let Some(next) = begun_at(begun, *first) else {
            return Err(RevTextFault::Form);
        };
        end_at(&mut steps, begun, *first)?;
        begun = Some(next);
        rest = after;
    }
    end_step(&mut steps, begun)?;
    Ok(steps)
}

fn with_base(
    alloc: Global,
    base: &[u8],
    entry: Option<u64>,
    behind: &[u8],
) -> Result<Rev, RevTextFault>
    ensures { GivesRev result (with_base_of base.now entry (steps_from [] None behind.now)) }
{
    let steps = steps_of(alloc, behind)?;
    let base = Bytes::from_vec(base.to_vec(alloc)?);
    Ok(Rev { base, entry, steps })
}

/// What stands behind a base.
#[tactic(auto, unfolding(crate::specs::Revs::rev_behind))]
fn rev_behind(alloc: Global, base: &[u8], behind: &[u8]) -> Result<Rev, RevTextFault>
    ensures { GivesRev result (rev_behind_of base.now behind.now) }
{
    if !behind.starts_with(b"@{") {
        return with_base(alloc, base, None, behind);
    }
    match entry_from(&behind[2..]) {
        Some((entry, behind)) => with_base(alloc, base, Some(entry), behind),
        None => Err(RevTextFault::Form),
    }
}

/// What a word says that names a commit (gitrevisions(7)): a base, then maybe `@{N}`, then `^`, `^N`, `~` and `~N` in any order. The
/// base is `@`, or such that `refs/` and it are the name of a ref; so are all names of refs, their ends, and hex digits. Form where it is
/// none: an empty word, a range, `^{commit}`, `:path`, `@{upstream}`.
#[tactic(auto, unfolding(crate::specs::Revs::rev_of))]
pub fn parse_rev(alloc: Global, word: &[u8]) -> Result<Rev, RevTextFault>
    ensures { GivesRev result (rev_of word.now) }
{
    let (base, behind) = word.split_at(base_length(word));
    if !is_base(alloc, base)? {
        return Err(RevTextFault::Form);
    }
    rev_behind(alloc, base, behind)
}
