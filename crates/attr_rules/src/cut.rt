//! Parts of a text.

ghost use Rattle.std.specs.Prelude.{◌≡◌, ◌<◌, ◌≤◌, length, position, IfSome};
ghost use Rattle.std.specs.List.{before_first, after_first};
ghost use Rattle.attr_rules.specs.Rules.{is_feed, without_blanks, without_return};
ghost use Rattle.seq_base.specs.Blanks.{is_blank};

use seq_base::is_blank;

/// What stands before the first line feed, and what stands behind it; all, and nothing, where there is none.
pub fn first_line(text: &[u8]) -> (&[u8], &[u8])
    ensures before { result.0.now ≡ before_first is_feed text.now }
    ensures behind { result.1.now ≡ after_first is_feed text.now }
{
    for (n, byte) in text.iter().enumerate() {
        if *byte == b'\n' {
            return (&text[..n], &text[n + 1..]);
        }
    }
    (text, &[])
}

/// The same with the first blank.
pub fn first_word(text: &[u8]) -> (&[u8], &[u8])
    ensures before { result.0.now ≡ before_first is_blank text.now }
    ensures behind { result.1.now ≡ after_first is_blank text.now }
{
    for (n, byte) in text.iter().enumerate() {
        if is_blank(*byte) {
            return (&text[..n], &text[n + 1..]);
        }
    }
    (text, &[])
}

pub fn without_return(line: &[u8]) -> &[u8]
    ensures { result.now ≡ without_return line.now }
{
    match line {
        [front @ .., last] => { if *last == b'\r' { front } else { line } }
        [] => line,
    }
}

pub fn without_blanks(line: &[u8]) -> &[u8]
    ensures { result.now ≡ without_blanks line.now }
{
    let mut rest = line;
    while let [first, after @ ..] = rest {
        if !is_blank(*first) {
            return rest;
        }
        rest = after;
    }
    rest
}
