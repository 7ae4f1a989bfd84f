//! Which words are plain: a look at the form of each, and at the rows of the verb.

ghost use Rattle.std.specs.Prelude.{◌≡◌, ℕ, List, Ok, Err, [], IfOk, drop, is_some, map, option_and_then, option_map, take};
ghost use Rattle.std.specs.List.{list_all, position_or_len};
ghost use Rattle.seq_base.specs.StorePaths.{is_text as is_text_of};
ghost use Rattle.seq_model.specs.Given.{any, any_word as any_word_of, attached as attached_of, begins_with as begins_with_of, as_argument as as_argument_of, given_behind, has_ended as has_ended_in, is_dashed as is_dashed_of, is_equals, is_long as is_long_of, row_named as row_named_in, dashed as dashed_of, named as named_of, step as step_by, long_value as long_value_of, short_value as short_value_of, with_value as with_value_of};
ghost use Rattle.seq_words.specs.Next.{attached_next, named_next, next_of};
ghost use Rattle.seq_words.specs.Rows.{expected_of, row_of, rows_of};

use crate::row::{Row, argument_row, is_flag, row_named};

/// What the next word is to be.
#[derive(Clone, Copy)]
pub enum Expected {
    Any,
    /// The value of an option.
    Value(Row),
    /// An argument, since `--` was met.
    Argument,
}

fn begins_with(byte: u8, word: &[u8]) -> bool
    ensures { result ≡ begins_with_of byte word.now }
{
    match word {
        [] => false,
        [first, ..] => *first == byte,
    }
}

fn is_dashed(word: &[u8]) -> bool
    ensures { result ≡ is_dashed_of word.now }
{
    begins_with(b'-', word)
}

fn behind(n: usize, word: &[u8]) -> &[u8]
    ensures { result.now ≡ drop n word.now }
{
    if n < word.len() { &word[n..] } else { &[] }
}

fn front(n: usize, word: &[u8]) -> &[u8]
    ensures { result.now ≡ take n word.now }
{
    if n < word.len() { &word[..n] } else { word }
}

fn is_long(word: &[u8]) -> bool
    ensures { result ≡ is_long_of word.now }
{
    is_dashed(word) && is_dashed(behind(1, word))
}

/// The place of the first `=`, or the word's length where there is none.
fn equals_at(word: &[u8]) -> usize
    ensures { result ≡ position_or_len is_equals word.now }
{
    for (n, byte) in word.iter().enumerate() {
        if *byte == b'=' {
            return n;
        }
    }
    word.len()
}

/// A value in the option's own word.
fn attached(row: Option<Row>) -> Option<Expected>
    ensures { option_map expected_of result ≡ attached_next (option_map row_of row) }
{
    let row = row?;
    if is_flag(row.form) {
        None
    } else {
        Some(Expected::Any)
    }
}

/// `--onto=X`
#[tactic(auto, using(crate::proofs::Placed::attached_is))]
fn long_value(rows: &[Row], word: &[u8]) -> Option<Expected>
    ensures { option_map expected_of result ≡ next_of (long_value_of (rows_of rows.now) word.now) }
{
    attached(row_named(rows, front(equals_at(word), word)))
}

/// `-mN`, where N does not begin with `=`.
#[tactic(auto, using(crate::proofs::Placed::attached_is))]
fn short_value(rows: &[Row], word: &[u8]) -> Option<Expected>
    ensures { option_map expected_of result ≡ next_of (short_value_of (rows_of rows.now) word.now) }
{
    if begins_with(b'=', behind(2, word)) {
        return None;
    }
    attached(row_named(rows, front(2, word)))
}

fn with_value(rows: &[Row], word: &[u8]) -> Option<Expected>
    ensures { option_map expected_of result ≡ next_of (with_value_of (rows_of rows.now) word.now) }
{
    if is_long(word) {
        long_value(rows, word)
    } else {
        short_value(rows, word)
    }
}

/// A flag, or an option whose value is the next word.
fn named(row: Row) -> Expected
    ensures { expected_of result ≡ named_next (row_of row) }
{
    if is_flag(row.form) {
        Expected::Any
    } else {
        Expected::Value(row)
    }
}

#[tactic(auto, using(crate::proofs::Placed::named_is))]
fn dashed(rows: &[Row], word: &[u8]) -> Option<Expected>
    ensures { option_map expected_of result ≡ next_of (dashed_of (row_named_in (rows_of rows.now) word.now) (rows_of rows.now) word.now) }
{
    match row_named(rows, word) {
        Some(row) => Some(named(row)),
        None => with_value(rows, word),
    }
}

fn as_argument(rows: &[Row], next: Expected) -> Option<Expected>
    ensures { (word : List ℕ) → option_map expected_of result ≡ next_of (as_argument_of (rows_of rows.now) word (expected_of next)) }
{
    argument_row(rows)?;
    Some(next)
}

fn any_word(rows: &[Row], word: &[u8]) -> Option<Expected>
    ensures { option_map expected_of result ≡ next_of (any_word_of (rows_of rows.now) word.now) }
{
    if word == b"--".as_slice() {
        return Some(Expected::Argument);
    }
    if !is_dashed(word) {
        return as_argument(rows, Expected::Any);
    }
    dashed(rows, word)
}

/// What is expected behind a word, and None where it may not stand there.
fn behind_word(rows: &[Row], expected: Expected, word: &[u8]) -> Option<Expected>
    ensures { option_map expected_of result ≡ next_of (step_by (rows_of rows.now) (expected_of expected) word.now) }
{
    match expected {
        Expected::Any => any_word(rows, word),
        Expected::Value(_) => {
            if is_dashed(word) {
                None
            } else {
                Some(Expected::Any)
            }
        }
        Expected::Argument => as_argument(rows, Expected::Argument),
    }
}

fn has_ended(expected: Expected) -> bool
    ensures { result ≡ has_ended_in (expected_of expected) }
{
    match expected {
        Expected::Any | Expected::Argument => true,
        Expected::Value(_) => false,
    }
}

/// Each word stands where it may.
pub fn is_plain(rows: &[Row], words: &[&str]) -> bool
    ensures { result ≡ is_some (given_behind (rows_of rows.now) [] any (map (λ word. word.now) words.now)) }
{
    let mut expected = Expected::Any;
    let mut rest = words;
    while let [word, after @ ..] = rest {
        let Some(next) = behind_word(rows, expected, word.as_bytes()) else {
            return false;
        };
        expected = next;
        rest = after;
    }
    has_ended(expected)
}
