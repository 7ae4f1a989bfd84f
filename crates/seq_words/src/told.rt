//! What `clap` is told of a verb: one argument a row.

ghost use Rattle.std.specs.Prelude.{◌≡◌, IfOk, false, option_map, slice_get};
ghost use Rattle.std.specs.Option.{option_or};
ghost use Rattle.clap.specs.Lexer.{strip_byte};
ghost use Rattle.clap.specs.Words.{app_of, rule_of};
ghost use Rattle.seq_words.specs.Rows.{row_of, rows_of};
ghost use Rattle.seq_words.specs.Verbs.{kept_rule, no_rules, valued_rule, told_app, told_rule};

use crate::row::{Row, is_flag};
use clap::{Arg, ArgAction, Command};
use std::alloc::{AllocError, Global};

fn without_dash<'a>(word: &'a str) -> Option<&'a str>
    ensures { option_map (λ rest. rest.now) result ≡ strip_byte 45 word.now }
{
    word.strip_prefix('-')
}

/// Each use of an argument is kept.
fn kept<'a>(alloc: Global, row: Row) -> Arg<'a>
    ensures { (rule_of result ≡ kept_rule (row_of row)) × (result.global ≡ false) }
{
    Arg::new(alloc, row.name).action(ArgAction::Append)
}

/// A use of a flag has the empty value.
fn valued<'a>(alloc: Global, row: Row) -> Arg<'a>
    ensures { (rule_of result ≡ valued_rule (row_of row)) × (result.global ≡ false) }
{
    let arg = kept(alloc, row);
    if is_flag(row.form) {
        arg.num_args(0).default_missing_value("")
    } else {
        arg
    }
}

/// The letter of `-m`.
fn lettered<'a>(arg: Arg<'a>, rest: &str) -> Arg<'a>
    ensures { (rule_of result ≡ record (rule_of arg.entry) { short = option_or (slice_get rest.now 0) arg.entry.short })
        × (result.global ≡ arg.entry.global) }
{
    match rest.as_bytes() {
        [letter, ..] => arg.short(*letter as char),
        _ => arg,
    }
}

fn arg_of<'a>(alloc: Global, row: Row) -> Arg<'a>
    ensures { (rule_of result ≡ told_rule (row_of row)) × (result.global ≡ false) }
{
    let arg = valued(alloc, row);
    let Some(rest) = without_dash(row.name) else {
        return arg;
    };
    match without_dash(rest) {
        Some(long) => arg.long(long),
        None => lettered(arg, rest),
    }
}

fn no_args<'a>(alloc: Global) -> Command<'a>
    ensures { app_of result ≡ no_rules }
{
    Command::new(alloc, "gitseq")
        .no_binary_name(true)
        .disable_help_flag(true)
}

/// The command of these rows.
pub fn told<'a>(alloc: Global, rows: &[Row]) -> Result<Command<'a>, AllocError>
    ensures { IfOk result (λ command. app_of command ≡ told_app (rows_of rows.now)) }
{
    let mut command = no_args(alloc);
    let mut rest = rows;
    while let [row, after @ ..] = rest {
        command = command.arg(arg_of(alloc, *row))?;
        rest = after;
    }
    Ok(command)
}
