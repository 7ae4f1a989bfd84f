//! Words read by `clap`, where they are plain.

ghost use Rattle.std.specs.Prelude.{◌≡◌, List, [], count_by, map, nat_lt};
ghost use Rattle.seq_model.specs.Faults.{judged};
ghost use Rattle.seq_model.specs.Given.{Given, any, given_behind, is_row as is_row_of, is_single as is_single_of};
ghost use Rattle.seq_words.specs.Held.{GivesText, GivesTexts, HoldsPlain, ReadsHeld, placed_once};
ghost use Rattle.seq_words.specs.Rows.{rows_of};
ghost use Rattle.seq_words.specs.Told.{Holds};
ghost use Rattle.seq_words.specs.VerbWords.{rows_for};

use crate::fault::{BadWords, fault_of};
use crate::matches::texts_given;
use crate::plain::is_plain;
use crate::row::{Row, is_repeated};
use crate::told::told;
use crate::verb::{VerbWord, table};
use clap::ArgMatches;
use clap::error::ErrorKind;
use seq_base::{Bytes, is_text};
use seq_model::UsageFault;
use std::alloc::Global;

/// The word as text.
#[tactic(auto, using(seq_base::proofs::Texts::text_tests))]
fn text_of(word: &Bytes) -> Result<&str, BadWords>
    ensures { GivesText result word.now }
{
    let bytes = word.as_slice();
    if !is_text(bytes) {
        return Err(BadWords::Usage(UsageFault::Parse));
    }
    match str::from_utf8(bytes) {
        Ok(text) => Ok(text),
        Err(_) => Err(BadWords::Usage(UsageFault::Parse)),
    }
}

/// The words as text.
pub fn texts_of(alloc: Global, words: &[Bytes]) -> Result<Vec<&str>, BadWords>
    ensures { GivesTexts result words.now }
{
    let mut texts = Vec::new(alloc);
    let mut rest = words;
    while let [word, after @ ..] = rest {
        let text = text_of(word)?;
        if texts.push(text).is_err() {
            return Err(BadWords::Memory);
        }
        rest = after;
    }
    Ok(texts)
}

/// At most one use of it stands.
fn stands_once(m: &ArgMatches, name: &str) -> bool
    ensures { (all : List Given) → Holds m.now all → result ≡ nat_lt (count_by (is_row_of name.now) all) 2 }
{
    match texts_given(m, name) {
        Some(texts) => texts.len() < 2,
        None => true,
    }
}

/// Nothing stands twice but what may be repeated.
fn is_single(rows: &[Row], m: &ArgMatches) -> bool
    ensures { (all : List Given) → Holds m.now all → result ≡ is_single_of (rows_of rows.now) all }
{
    let mut rest = rows;
    while let [row, after @ ..] = rest {
        if !is_repeated(row.form) && !stands_once(m, row.name) {
            return false;
        }
        rest = after;
    }
    true
}

/// What `clap` holds of the words, where each stands where it may: it takes such words, and lacks memory alone.
fn matches_of<'a>(
    alloc: Global,
    verb: VerbWord,
    words: &'a [&'a str],
) -> Result<ArgMatches<'a>, BadWords>
    ensures { HoldsPlain (rows_for verb) result (given_behind (rows_for verb) [] any (map (λ word. word.now) words.now)) }
{
    let rows = table(verb);
    if !is_plain(rows, words) {
        return Err(BadWords::Usage(UsageFault::Parse));
    }
    let command = told(alloc, rows)?;
    match command.try_get_matches_from(words) {
        Ok(m) => Ok(m),
        Err(error) => {
            let is_memory = error.kind() == ErrorKind::OutOfMemory;
            prove!(is_memory);
            Err(BadWords::Memory)
        }
    }
}

/// What `clap` holds of the words, where nothing is wrong with them.
pub fn read_by<'a>(
    alloc: Global,
    verb: VerbWord,
    words: &'a [&'a str],
) -> Result<ArgMatches<'a>, BadWords>
    ensures { ReadsHeld result (judged (rows_for verb) (placed_once (rows_for verb) (map (λ word. word.now) words.now))) }
{
    let m = matches_of(alloc, verb, words)?;
    let rows = table(verb);
    if !is_single(rows, &m) {
        return Err(BadWords::Usage(UsageFault::Parse));
    }
    match fault_of(alloc, rows, &m)? {
        None => Ok(m),
        Some(fault) => Err(BadWords::Usage(fault)),
    }
}
