//! What plain words without a fault ask for.

ghost use Rattle.std.specs.Prelude.{◌≡◌, List, [], IfOk, codes, map, option_map, unwrap_or};
ghost use Rattle.seq_model.specs.Commands.{add as add_of, cat as cat_of, cherry_pick as cherry_pick_of, cherry_pick_empty as cherry_pick_empty_of, cherry_pick_options as cherry_pick_options_of, commit as commit_of, empty_given as empty_given_in, is_keep as is_keep_of, mainline_given as mainline_given_in, picks as picks_of, rebase as rebase_of, rebase_empty as rebase_empty_of, rebase_options as rebase_options_of, rebase_start as rebase_start_of, revert as revert_of, revert_options as revert_options_of, rm as rm_of, value_given as value_given_in, values_given as values_given_in};
ghost use Rattle.seq_model.specs.Faults.{shell_command as shell_command_of};
ghost use Rattle.seq_model.specs.Given.{Given};
ghost use Rattle.seq_words.specs.Told.{Holds};
ghost use Rattle.seq_words.specs.VerbWords.{asked_by};

use crate::fault::bytes_of;
use crate::matches::{action_given, is_given, texts_given};
use crate::value::{empty_named, parent_number, shell_command};
use crate::verb::VerbWord;
use clap::ArgMatches;
use seq_base::Bytes;
use seq_model::{Command, Empty, Options, PlumbWords, StartWords, Values, Verb};
use std::alloc::{AllocError, Global};

/// The first value.
#[tactic(auto, using(crate::proofs::Kept::held_words))]
fn value_given<'a>(m: &ArgMatches<'a>, name: &str) -> Option<&'a str>
    ensures { (all : List Given) → Holds m.now all → option_map (λ value. value.now) result ≡ value_given_in all name.now }
{
    m.get_str(name)
}

/// Copies of the texts.
fn values_of(alloc: Global, texts: &[&str]) -> Result<Values, AllocError>
    ensures { IfOk result (λ values. values ≡ map (λ value. value.now) texts.now) }
{
    let mut values = Vec::new(alloc);
    let mut rest = texts;
    while let [text, after @ ..] = rest {
        values.push(bytes_of(alloc, text.as_bytes())?)?;
        rest = after;
    }
    Ok(Values::from_vec(values))
}

/// The commands that the texts are.
fn commands_of(alloc: Global, texts: &[&str]) -> Result<Values, AllocError>
    ensures { IfOk result (λ values. values ≡ map shell_command_of (map (λ value. value.now) texts.now)) }
{
    let mut values = Vec::new(alloc);
    let mut rest = texts;
    while let [text, after @ ..] = rest {
        values.push(bytes_of(alloc, shell_command(text.as_bytes()))?)?;
        rest = after;
    }
    Ok(Values::from_vec(values))
}

/// The values, in the order given.
fn values_given(alloc: Global, m: &ArgMatches, name: &str) -> Result<Values, AllocError>
    ensures { (all : List Given) → Holds m.now all → IfOk result (λ values. values ≡ values_given_in all name.now) }
{
    match texts_given(m, name) {
        Some(texts) => values_of(alloc, texts),
        None => Ok(no_values(alloc)),
    }
}

/// The commands of `-x`, in the order given.
fn commands_given(alloc: Global, m: &ArgMatches) -> Result<Values, AllocError>
    ensures { (all : List Given) → Holds m.now all → IfOk result (λ values. values ≡ map shell_command_of (values_given_in all (codes "-x"))) }
{
    match texts_given(m, "-x") {
        Some(texts) => commands_of(alloc, texts),
        None => Ok(no_values(alloc)),
    }
}

fn no_values(alloc: Global) -> Values
    ensures { result ≡ [] }
{
    Values::from_vec(Vec::new(alloc))
}

/// The value, or nothing where there is none.
fn value_or_empty(alloc: Global, m: &ArgMatches, name: &str) -> Result<Bytes, AllocError>
    ensures { (all : List Given) → Holds m.now all → IfOk result (λ value. value ≡ unwrap_or (value_given_in all name.now) []) }
{
    match value_given(m, name) {
        Some(value) => bytes_of(alloc, value.as_bytes()),
        None => bytes_of(alloc, &[]),
    }
}

fn onto_given(alloc: Global, m: &ArgMatches) -> Result<Option<Bytes>, AllocError>
    ensures { (all : List Given) → Holds m.now all → IfOk result (λ onto. onto ≡ value_given_in all (codes "--onto")) }
{
    match value_given(m, "--onto") {
        Some(value) => Ok(Some(bytes_of(alloc, value.as_bytes())?)),
        None => Ok(None),
    }
}

fn empty_given(m: &ArgMatches) -> Option<Empty>
    ensures { (all : List Given) → Holds m.now all → result ≡ empty_given_in all }
{
    match value_given(m, "--empty") {
        Some(word) => empty_named(word.as_bytes()),
        None => None,
    }
}

fn mainline_given(m: &ArgMatches) -> Option<u32>
    ensures { (all : List Given) → Holds m.now all → result ≡ mainline_given_in all }
{
    match value_given(m, "-m") {
        Some(word) => parent_number(word.as_bytes()),
        None => None,
    }
}

fn rebase_empty(m: &ArgMatches) -> Empty
    ensures { (all : List Given) → Holds m.now all → result ≡ rebase_empty_of all }
{
    if let Some(empty) = empty_given(m) {
        return empty;
    }
    if is_given(m, "-i") {
        Empty::Stop
    } else if is_given(m, "-x") {
        Empty::Keep
    } else {
        Empty::Drop
    }
}

fn rebase_options(m: &ArgMatches) -> Options
    ensures { (all : List Given) → Holds m.now all → result ≡ rebase_options_of all }
{
    Options {
        ff: !is_given(m, "--no-ff"),
        empty: rebase_empty(m),
        reschedule: is_given(m, "--reschedule-failed-exec"),
        mainline: None,
        edit: false,
        record_origin: false,
        allow_empty: false,
    }
}

fn rebase_start(alloc: Global, m: &ArgMatches) -> Result<StartWords, AllocError>
    ensures { (all : List Given) → Holds m.now all → IfOk result (λ start. start ≡ rebase_start_of all) }
{
    let revs = values_given(alloc, m, "UPSTREAM")?;
    let onto = onto_given(alloc, m)?;
    let execs = commands_given(alloc, m)?;
    Ok(StartWords {
        verb: Verb::Rebase,
        options: rebase_options(m),
        revs,
        onto,
        interactive: is_given(m, "-i"),
        merges: is_given(m, "--rebase-merges"),
        autosquash: is_given(m, "--autosquash"),
        update_refs: is_given(m, "--update-refs"),
        execs,
    })
}

fn cherry_pick_empty(m: &ArgMatches) -> Empty
    ensures { (all : List Given) → Holds m.now all → result ≡ cherry_pick_empty_of all }
{
    if is_given(m, "--keep-redundant-commits") {
        return Empty::Keep;
    }
    match empty_given(m) {
        Some(empty) => empty,
        None => Empty::Stop,
    }
}

fn is_keep(empty: Empty) -> bool
    ensures { result ≡ is_keep_of empty }
{
    match empty {
        Empty::Keep => true,
        _ => false,
    }
}

fn cherry_pick_options(m: &ArgMatches) -> Options
    ensures { (all : List Given) → Holds m.now all → result ≡ cherry_pick_options_of all }
{
    let empty = cherry_pick_empty(m);
    Options {
        ff: false,
        empty,
        reschedule: false,
        mainline: mainline_given(m),
        edit: is_given(m, "-e"),
        record_origin: is_given(m, "-x"),
        allow_empty: is_given(m, "--allow-empty") || is_keep(empty),
    }
}

fn revert_options(m: &ArgMatches) -> Options
    ensures { (all : List Given) → Holds m.now all → result ≡ revert_options_of all }
{
    Options {
        ff: false,
        empty: Empty::Stop,
        reschedule: false,
        mainline: mainline_given(m),
        edit: is_given(m, "-e"),
        record_origin: false,
        allow_empty: false,
    }
}

/// The start of a pick or a revert of what is named.
fn picks(
    alloc: Global,
    verb: Verb,
    options: Options,
    m: &ArgMatches,
) -> Result<StartWords, AllocError>
    ensures { (all : List Given) → Holds m.now all → IfOk result (λ start. start ≡ picks_of verb options all) }
{
    let revs = values_given(alloc, m, "REV")?;
    Ok(StartWords {
        verb,
        options,
        revs,
        onto: None,
        interactive: false,
        merges: false,
        autosquash: false,
        update_refs: false,
        execs: no_values(alloc),
    })
}

fn rebase(alloc: Global, m: &ArgMatches) -> Result<Command, AllocError>
    ensures { (all : List Given) → Holds m.now all → IfOk result (λ command. command ≡ rebase_of all) }
{
    if let Some(action) = action_given(m) {
        return Ok(Command::Act(Verb::Rebase, action));
    }
    Ok(Command::Start(rebase_start(alloc, m)?))
}

fn cherry_pick(alloc: Global, m: &ArgMatches) -> Result<Command, AllocError>
    ensures { (all : List Given) → Holds m.now all → IfOk result (λ command. command ≡ cherry_pick_of all) }
{
    if let Some(action) = action_given(m) {
        return Ok(Command::Act(Verb::CherryPick, action));
    }
    let options = cherry_pick_options(m);
    Ok(Command::Start(picks(alloc, Verb::CherryPick, options, m)?))
}

fn revert(alloc: Global, m: &ArgMatches) -> Result<Command, AllocError>
    ensures { (all : List Given) → Holds m.now all → IfOk result (λ command. command ≡ revert_of all) }
{
    if let Some(action) = action_given(m) {
        return Ok(Command::Act(Verb::Revert, action));
    }
    let options = revert_options(m);
    Ok(Command::Start(picks(alloc, Verb::Revert, options, m)?))
}

fn add(alloc: Global, m: &ArgMatches) -> Result<Command, AllocError>
    ensures { (all : List Given) → Holds m.now all → IfOk result (λ command. command ≡ add_of all) }
{
    let paths = values_given(alloc, m, "PATH")?;
    Ok(Command::Plumb(PlumbWords::Add { paths }))
}

fn rm(alloc: Global, m: &ArgMatches) -> Result<Command, AllocError>
    ensures { (all : List Given) → Holds m.now all → IfOk result (λ command. command ≡ rm_of all) }
{
    let paths = values_given(alloc, m, "PATH")?;
    Ok(Command::Plumb(PlumbWords::Rm { paths }))
}

fn commit(alloc: Global, m: &ArgMatches) -> Result<Command, AllocError>
    ensures { (all : List Given) → Holds m.now all → IfOk result (λ command. command ≡ commit_of all) }
{
    let message = value_or_empty(alloc, m, "-m")?;
    let amend = is_given(m, "--amend");
    Ok(Command::Plumb(PlumbWords::Commit { amend, message }))
}

fn cat(alloc: Global, m: &ArgMatches) -> Result<Command, AllocError>
    ensures { (all : List Given) → Holds m.now all → IfOk result (λ command. command ≡ cat_of all) }
{
    let word = value_or_empty(alloc, m, "HEX")?;
    Ok(Command::Plumb(PlumbWords::Cat { word }))
}

/// What the verb asks for, with what `clap` holds of the words behind it.
pub fn asked(alloc: Global, verb: VerbWord, m: &ArgMatches) -> Result<Command, AllocError>
    ensures { (all : List Given) → Holds m.now all → IfOk result (λ command. command ≡ asked_by verb all) }
{
    match verb {
        VerbWord::Rebase => rebase(alloc, m),
        VerbWord::CherryPick => cherry_pick(alloc, m),
        VerbWord::Revert => revert(alloc, m),
        VerbWord::Init => Ok(Command::Plumb(PlumbWords::Init)),
        VerbWord::Add => add(alloc, m),
        VerbWord::Rm => rm(alloc, m),
        VerbWord::Commit => commit(alloc, m),
        VerbWord::Status => Ok(Command::Plumb(PlumbWords::Status)),
        VerbWord::Cat => cat(alloc, m),
    }
}
