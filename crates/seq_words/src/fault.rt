//! What is wrong with plain words.

ghost use Rattle.std.specs.Prelude.{◌≡◌, List, [], ◌∷◌, IfNone, IfOk, IfSome, find, is_some, map, not, option_map};
ghost use Rattle.seq_model.specs.Faults.{bad_value as bad_value_of, empty_named as empty_named_by, fault_of as fault_of_given, first_bad, given_rows, is_acting as is_acting_in, is_bad_empty as is_bad_empty_of, is_bad_number as is_bad_number_of, is_bad_shell as is_bad_shell_of, is_missing as is_missing_in, is_shell_line as is_shell_line_of, lacks_one as lacks_one_of, pair_of as pair_of_given, parent_number as parent_number_of, first_two as first_two_of, shell_command as shell_command_of};
ghost use Rattle.seq_model.specs.Given.{Given};
ghost use Rattle.seq_model.specs.Rows.{Row as ModelRow};
ghost use Rattle.seq_words.specs.Forms.{HoldsOf};
ghost use Rattle.seq_words.specs.Told.{Holds};
ghost use Rattle.seq_words.specs.Rows.{row_of, rows_of};

use crate::matches::{action_given, is_given, texts_given};
use crate::row::{Row, is_needed, row_named};
use crate::value::{empty_named, is_shell_line, parent_number, shell_command};
use clap::ArgMatches;
use seq_base::Bytes;
use seq_model::{Form, UsageFault};
use std::alloc::{AllocError, Global};

/// Why words are not read.
#[derive(Drop)]
pub enum BadWords {
    Usage(UsageFault),
    Memory,
}

impl From<AllocError> for BadWords {
    ghost use Rattle.std.specs.Prelude.{◌≡◌};
    ghost use Rattle.seq_words.specs.declared.fault.BadWords.TheVariants.{Memory};

    ghost from_gives = { λ _ made. made ≡ Memory };

    fn from(_: AllocError) -> BadWords {
        BadWords::Memory
    }
}

pub fn bytes_of(alloc: Global, bytes: &[u8]) -> Result<Bytes, AllocError>
    ensures { IfOk result (λ b. b ≡ bytes.now) }
{
    Ok(Bytes::from_vec(Vec::from_slice(alloc, bytes)?))
}

fn bad_empty<'a>(words: &[&'a str]) -> Option<&'a str>
    ensures { option_map (λ word. word.now) result ≡ find (λ word. not (is_some (empty_named_by word))) (map (λ word. word.now) words.now) }
{
    let mut rest = words;
    while let [word, after @ ..] = rest {
        if empty_named(word.as_bytes()).is_none() {
            return Some(*word);
        }
        rest = after;
    }
    None
}

fn bad_number<'a>(words: &[&'a str]) -> Option<&'a str>
    ensures { option_map (λ word. word.now) result ≡ find (λ word. not (is_some (parent_number_of word))) (map (λ word. word.now) words.now) }
{
    let mut rest = words;
    while let [word, after @ ..] = rest {
        if parent_number(word.as_bytes()).is_none() {
            return Some(*word);
        }
        rest = after;
    }
    None
}

fn bad_shell<'a>(words: &[&'a str]) -> Option<&'a str>
    ensures { option_map (λ word. word.now) result
        ≡ find (λ word. not (is_shell_line_of (shell_command_of word))) (map (λ word. word.now) words.now) }
{
    let mut rest = words;
    while let [word, after @ ..] = rest {
        if !is_shell_line(shell_command(word.as_bytes())) {
            return Some(*word);
        }
        rest = after;
    }
    None
}

#[tactic(auto, using(crate::proofs::Forms::bad_words))]
fn first_bad_empty<'a>(rows: &[Row], m: &ArgMatches<'a>) -> Option<&'a str>
    ensures { (all : List Given) → HoldsOf (rows_of rows.now) m.now all → option_map (λ word. word.now) result ≡ first_bad is_bad_empty_of all }
{
    let row = row_named(rows, b"--empty")?;
    if row.form == Form::Empty {
        bad_empty(texts_given(m, "--empty")?)
    } else {
        None
    }
}

#[tactic(auto, using(crate::proofs::Forms::bad_words))]
fn first_bad_number<'a>(rows: &[Row], m: &ArgMatches<'a>) -> Option<&'a str>
    ensures { (all : List Given) → HoldsOf (rows_of rows.now) m.now all → option_map (λ word. word.now) result ≡ first_bad is_bad_number_of all }
{
    let row = row_named(rows, b"-m")?;
    if row.form == Form::Number {
        bad_number(texts_given(m, "-m")?)
    } else {
        None
    }
}

#[tactic(auto, using(crate::proofs::Forms::bad_words))]
fn first_bad_shell<'a>(rows: &[Row], m: &ArgMatches<'a>) -> Option<&'a str>
    ensures { (all : List Given) → HoldsOf (rows_of rows.now) m.now all → option_map (λ word. word.now) result ≡ first_bad is_bad_shell_of all }
{
    let row = row_named(rows, b"-x")?;
    if row.form == Form::Shell {
        bad_shell(texts_given(m, "-x")?)
    } else {
        None
    }
}

/// The value of which to tell: the first of `--empty`, else of `-m`, else of `-x`.
fn bad_value<'a>(rows: &[Row], m: &ArgMatches<'a>) -> Option<&'a str>
    ensures { (all : List Given) → HoldsOf (rows_of rows.now) m.now all → option_map (λ word. word.now) result ≡ bad_value_of all }
{
    if let Some(word) = first_bad_empty(rows, m) {
        return Some(word);
    }
    if let Some(word) = first_bad_number(rows, m) {
        return Some(word);
    }
    first_bad_shell(rows, m)
}

#[tactic(auto, using(crate::proofs::Forms::acting_words))]
fn is_acting(m: &ArgMatches) -> bool
    ensures { (rows : List ModelRow) (all : List Given) → HoldsOf rows m.now all → result ≡ is_acting_in all }
{
    action_given(m).is_some()
}

fn lacks_one(rows: &[Row], m: &ArgMatches) -> bool
    ensures { (all : List Given) → Holds m.now all → result ≡ lacks_one_of (rows_of rows.now) all }
{
    let mut rest = rows;
    while let [row, after @ ..] = rest {
        if is_needed(row.form) && !is_given(m, row.name) {
            return true;
        }
        rest = after;
    }
    false
}

fn is_missing(rows: &[Row], m: &ArgMatches) -> bool
    ensures { (all : List Given) → HoldsOf (rows_of rows.now) m.now all → result ≡ is_missing_in (rows_of rows.now) all }
{
    !is_acting(m) && lacks_one(rows, m)
}

/// The first row that is given, and the rows behind it.
fn first_given<'r>(rows: &'r [Row], m: &ArgMatches) -> Option<(Row, &'r [Row])>
    ensures none { (all : List Given) → Holds m.now all → IfNone result (given_rows all (rows_of rows.now) ≡ []) }
    ensures some { (all : List Given) → Holds m.now all → IfSome result (λ x.
        given_rows all (rows_of rows.now) ≡ row_of x.0 ∷ given_rows all (rows_of x.1.now)) }
{
    let mut rest = rows;
    while let [row, after @ ..] = rest {
        if is_given(m, row.name) {
            return Some((*row, after));
        }
        rest = after;
    }
    None
}

fn pair(alloc: Global, first: &str, second: &str) -> Result<UsageFault, AllocError>
    ensures { IfOk result (λ fault. fault ≡ UsageFault.Pair first.now second.now) }
{
    let first = bytes_of(alloc, first.as_bytes())?;
    let second = bytes_of(alloc, second.as_bytes())?;
    Ok(UsageFault::Pair { first, second })
}

/// The first two rows that are given.
fn first_two(alloc: Global, rows: &[Row], m: &ArgMatches) -> Result<Option<UsageFault>, AllocError>
    ensures { (all : List Given) → Holds m.now all → IfOk result (λ fault. fault ≡ first_two_of (given_rows all (rows_of rows.now))) }
{
    let Some((first, behind)) = first_given(rows, m) else {
        return Ok(None);
    };
    let Some((second, _)) = first_given(behind, m) else {
        return Ok(None);
    };
    Ok(Some(pair(alloc, first.name, second.name)?))
}

fn pair_of(alloc: Global, rows: &[Row], m: &ArgMatches) -> Result<Option<UsageFault>, AllocError>
    ensures { (all : List Given) → HoldsOf (rows_of rows.now) m.now all → IfOk result (λ fault. fault ≡ pair_of_given (rows_of rows.now) all) }
{
    if is_acting(m) {
        return first_two(alloc, rows, m);
    }
    if is_given(m, "--keep-redundant-commits") && is_given(m, "--empty") {
        return Ok(Some(pair(alloc, "--keep-redundant-commits", "--empty")?));
    }
    Ok(None)
}

pub fn fault_of(
    alloc: Global,
    rows: &[Row],
    m: &ArgMatches,
) -> Result<Option<UsageFault>, AllocError>
    ensures { (all : List Given) → HoldsOf (rows_of rows.now) m.now all → IfOk result (λ fault. fault ≡ fault_of_given (rows_of rows.now) all) }
{
    if let Some(word) = bad_value(rows, m) {
        let word = bytes_of(alloc, word.as_bytes())?;
        return Ok(Some(UsageFault::Value { word }));
    }
    if is_missing(rows, m) {
        return Ok(Some(UsageFault::Missing));
    }
    pair_of(alloc, rows, m)
}
