//! The words of the command line.

ghost use Rattle.std.specs.Prelude.{◌≡◌, Err};
ghost use Rattle.seq_model.specs.Commands.{asks, behind_verb as behind_verb_of, command_of};
ghost use Rattle.seq_model.specs.Faults.{read_by as read_by_rows};
ghost use Rattle.seq_words.specs.Reading.{ReadsAs};
ghost use Rattle.seq_words.specs.VerbWords.{asked_by, rows_for};

use crate::command::asked;
use crate::fault::BadWords;
use crate::read::{read_by, texts_of};
use crate::verb::VerbWord;
use seq_base::Bytes;
use seq_model::{Command, UsageFault};
use std::alloc::Global;

fn read_verb(alloc: Global, verb: VerbWord, words: &[Bytes]) -> Result<Command, BadWords>
    ensures { ReadsAs result (asks (asked_by verb) (read_by_rows (rows_for verb) words.now)) }
{
    let texts = texts_of(alloc, words)?;
    let m = read_by(alloc, verb, &texts)?;
    Ok(asked(alloc, verb, &m)?)
}

fn unknown_verb(verb: &Bytes) -> Result<Command, BadWords>
    ensures { ReadsAs result (Err (UsageFault.UnknownVerb verb.now)) }
{
    let word = verb.clone()?;
    Err(BadWords::Usage(UsageFault::UnknownVerb { word }))
}

fn behind_verb(alloc: Global, verb: &Bytes, words: &[Bytes]) -> Result<Command, BadWords>
    ensures { ReadsAs result (behind_verb_of verb.now words.now) }
{
    let name = verb.as_slice();
    if name == b"rebase".as_slice() {
        read_verb(alloc, VerbWord::Rebase, words)
    } else if name == b"cherry-pick".as_slice() {
        read_verb(alloc, VerbWord::CherryPick, words)
    } else if name == b"revert".as_slice() {
        read_verb(alloc, VerbWord::Revert, words)
    } else if name == b"init".as_slice() {
        read_verb(alloc, VerbWord::Init, words)
    } else if name == b"add".as_slice() {
        read_verb(alloc, VerbWord::Add, words)
    } else if name == b"rm".as_slice() {
        read_verb(alloc, VerbWord::Rm, words)
    } else if name == b"commit".as_slice() {
        read_verb(alloc, VerbWord::Commit, words)
    } else if name == b"status".as_slice() {
        read_verb(alloc, VerbWord::Status, words)
    } else if name == b"cat".as_slice() {
        read_verb(alloc, VerbWord::Cat, words)
    } else {
        unknown_verb(verb)
    }
}

/// What the words of the command line ask for, the verb first, or what is wrong with them.
pub fn read_words(alloc: Global, words: &[Bytes]) -> Result<Command, BadWords>
    ensures { ReadsAs result (command_of words.now) }
{
    match words {
        [] => Err(BadWords::Usage(UsageFault::NoVerb)),
        [verb, rest @ ..] => behind_verb(alloc, verb, rest),
    }
}
