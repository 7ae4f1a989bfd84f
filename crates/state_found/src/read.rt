//! The files of a stopped list are read.

ghost use Rattle.std.specs.FinMap as map;
ghost use Rattle.std.specs.Prelude.{◌≡◌, ◌∷◌, ◌++◌, [], IfOk, OnOk, false, option_map, true, unwrap_or};
ghost use Rattle.std.specs.Result.{result_map_both};
ghost use Rattle.seq_outside.specs.Store.{IsFolderPath};
ghost use Rattle.seq_outside.specs.Halts.{halt_cause};
ghost use Rattle.seq_outside.specs.Seen.{Reads, store_cause};
ghost use Rattle.state_found.specs.Found.{has_files as has_files_by, is_asked as is_asked_by, verb_of_step as verb_of_step_by};
ghost use Rattle.state_found.specs.Judged.{IsRebaseJudged, IsSequenceJudged, files_found};
ghost use Rattle.state_found.specs.Reads.{HasControl, IsControlBut, IsStateRead};
ghost use Rattle.state_text.specs.Places.{folder_of as folder_of_by, in_step_path as in_step_path_by, state_path as state_path_by};

use crate::fault::StateFault;
use crate::found::Found;
use crate::judged::{judge_rebase, judge_sequence};
use seq_base::Bytes;
use seq_outside::{Halt, Store, StoreError};
use state_text::{Control, StateFile, Verb, file_name, files_of, in_step_path, state_path};
use std::alloc::{AllocError, Global};

fn is_asked(file: StateFile) -> bool
    ensures { result ≡ is_asked_by file }
{
    file_name(file) != file_name(StateFile::RebaseTodo)
}

fn text_at<S: Store>(
    alloc: Global,
    store: &mut S,
    verb: Verb,
    file: StateFile,
) -> Result<Option<Bytes>, StoreError>
    ensures text { S.told → IfOk result (λ text. text ≡ map.get (S.seen store.old).content (state_path_by verb file)) }
    ensures reads { Reads S.told store_cause result (S.seen store.old) (S.seen store.new) }
{
    match store.get(alloc, state_path(verb, file))? {
        Some(text) => Ok(Some(Bytes::from_vec(text))),
        None => Ok(None),
    }
}

fn push_file(
    found: &mut Vec<(StateFile, Option<Bytes>)>,
    file: StateFile,
    text: Option<Bytes>,
) -> Result<(), AllocError>
    ensures { OnOk result (found.new.items ≡ found.old.items ++ (file, text) ∷ []) }
{
    found.push((file, text))?;
    Ok(())
}

/// The files that are asked, with what they hold.
fn found_files<S: Store>(
    alloc: Global,
    store: &mut S,
    verb: Verb,
) -> Result<Vec<(StateFile, Option<Bytes>)>, StoreError>
    ensures found { S.told → IfOk result (λ found. found.items ≡ files_found (S.seen store.old).content verb) }
    ensures reads { Reads S.told store_cause result (S.seen store.old) (S.seen store.new) }
{
    let mut found = Vec::new(alloc);
    let mut rest = files_of(verb);
    while let [file, after @ ..] = rest {
        if is_asked(*file) {
            let text = text_at(alloc, store, verb, *file)?;
            push_file(&mut found, *file, text)?;
        }
        rest = after;
    }
    Ok(found)
}

fn todo_bytes<S: Store>(alloc: Global, store: &mut S) -> Result<Vec<u8>, StoreError>
    ensures text { S.told → IfOk result (λ text. text.items
        ≡ unwrap_or (map.get (S.seen store.old).content (state_path_by Verb.Rebase StateFile.RebaseTodo)) []) }
    ensures reads { Reads S.told store_cause result (S.seen store.old) (S.seen store.new) }
{
    match store.get(alloc, state_path(Verb::Rebase, StateFile::RebaseTodo))? {
        Some(text) => Ok(text),
        None => Ok(Vec::new(alloc)),
    }
}

fn folder_of(verb: Verb) -> &'static [u8]
    ensures folder { result.now ≡ folder_of_by verb }
    ensures path { IsFolderPath result.now }
{
    match verb {
        Verb::Rebase => b".git/rebase-merge",
        Verb::CherryPick | Verb::Revert => b".git/sequencer",
    }
}

fn has_files<S: Store>(alloc: Global, store: &mut S, verb: Verb) -> Result<bool, StoreError>
    ensures there { S.told → IfOk result (λ there. there ≡ has_files_by (S.seen store.old).content (folder_of_by verb)) }
    ensures reads { Reads S.told store_cause result (S.seen store.old) (S.seen store.new) }
{
    let paths = store.list(alloc, folder_of(verb))?;
    Ok(!paths.is_empty())
}

fn step_text<S: Store>(
    alloc: Global,
    store: &mut S,
    verb: Verb,
) -> Result<Option<Vec<u8>>, StoreError>
    ensures text { S.told → IfOk result (λ text. option_map (λ v. v.items) text ≡ map.get (S.seen store.old).content (in_step_path_by verb)) }
    ensures reads { Reads S.told store_cause result (S.seen store.old) (S.seen store.new) }
{
    store.get(alloc, in_step_path(verb))
}

fn verb_of_step(text: &[u8]) -> Verb
    ensures { result ≡ verb_of_step_by text.now }
{
    if text == b"revert\n".as_slice() {
        Verb::Revert
    } else {
        Verb::CherryPick
    }
}

fn paused(judged: Result<Control, StateFile>) -> Result<Found, Halt<StateFault>>
    requires control { IfOk judged IsControlBut }
    ensures control { IfOk result HasControl }
    ensures found { result ≡ result_map_both (λ k. Found.Paused k) (λ f. Halt.Stops (StateFault.Bad f)) judged }
{
    match judged {
        Ok(control) => Ok(Found::Paused(control)),
        Err(file) => Err(Halt::Stops(StateFault::Bad { file })),
    }
}

/// The rebase that these files tell, and the todo.
#[tactic(auto, using(crate::proofs::ControlLaws::rebase_but))]
fn rebase_with_todo<S: Store>(
    alloc: Global,
    store: &mut S,
    found: &[(StateFile, Option<Bytes>)],
) -> Result<Result<Control, StateFile>, StoreError>
    ensures judged { S.told → IfOk result (IsRebaseJudged found.now
        (unwrap_or (map.get (S.seen store.old).content (state_path_by Verb.Rebase StateFile.RebaseTodo)) [])) }
    ensures control { IfOk result (λ judged. IfOk judged IsControlBut) }
    ensures reads { Reads S.told store_cause result (S.seen store.old) (S.seen store.new) }
{
    let todo = todo_bytes(alloc, store)?;
    Ok(judge_rebase(alloc, found, &todo)?)
}

/// The rebase that the files tell.
fn rebase_at<S: Store>(
    alloc: Global,
    store: &mut S,
) -> Result<Result<Control, StateFile>, StoreError>
    ensures judged { S.told → IfOk result (IsRebaseJudged (files_found (S.seen store.old).content Verb.Rebase)
        (unwrap_or (map.get (S.seen store.old).content (state_path_by Verb.Rebase StateFile.RebaseTodo)) [])) }
    ensures control { IfOk result (λ judged. IfOk judged IsControlBut) }
    ensures reads { Reads S.told store_cause result (S.seen store.old) (S.seen store.new) }
{
    let found = found_files(alloc, store, Verb::Rebase)?;
    Ok(rebase_with_todo(alloc, store, &found)?)
}

#[tactic(auto, using(crate::proofs::ControlLaws::sequence_but))]
fn sequence_at<S: Store>(
    alloc: Global,
    store: &mut S,
) -> Result<Result<Control, StateFile>, StoreError>
    ensures judged { S.told → IfOk result (IsSequenceJudged (files_found (S.seen store.old).content Verb.CherryPick)) }
    ensures control { IfOk result (λ judged. IfOk judged IsControlBut) }
    ensures reads { Reads S.told store_cause result (S.seen store.old) (S.seen store.new) }
{
    let found = found_files(alloc, store, Verb::CherryPick)?;
    Ok(judge_sequence(alloc, &found)?)
}

/// What the folder of a rebase is found to be.
#[tactic(auto, using(crate::proofs::StateLaws::rebase_runs))]
fn read_rebase<S: Store>(alloc: Global, store: &mut S) -> Result<Found, Halt<StateFault>>
    ensures state { S.told → has_files_by (S.seen store.old).content (folder_of_by Verb.Rebase) ≡ true
        → IsStateRead (S.seen store.old).content result }
    ensures control { IfOk result HasControl }
    ensures reads { Reads S.told halt_cause result (S.seen store.old) (S.seen store.new) }
{
    if let Some(_) = step_text(alloc, store, Verb::Rebase)? {
        return Ok(Found::Interrupted(Verb::Rebase));
    }
    paused(rebase_at(alloc, store)?)
}

/// What the folder of a cherry-pick or a revert is found to be.
#[tactic(auto, using(crate::proofs::StateLaws::sequence_runs))]
fn read_sequence<S: Store>(alloc: Global, store: &mut S) -> Result<Found, Halt<StateFault>>
    ensures state { S.told → has_files_by (S.seen store.old).content (folder_of_by Verb.Rebase) ≡ false
        → has_files_by (S.seen store.old).content (folder_of_by Verb.CherryPick) ≡ true → IsStateRead (S.seen store.old).content result }
    ensures control { IfOk result HasControl }
    ensures reads { Reads S.told halt_cause result (S.seen store.old) (S.seen store.new) }
{
    if let Some(text) = step_text(alloc, store, Verb::CherryPick)? {
        return Ok(Found::Interrupted(verb_of_step(&text)));
    }
    paused(sequence_at(alloc, store)?)
}

/// What the files of a stopped list are found to be: those of a rebase where a file stands in its folder. A list is paused exactly where
/// its files are those of a control, but for the todo of a rebase, which tells what is left; it was interrupted exactly where `in-step`
/// stands. Bad with the first file, in their order, such that no control has it and those before it (git-rebase(1), `--continue`).
pub fn read_state<S: Store>(alloc: Global, store: &mut S) -> Result<Found, Halt<StateFault>>
    ensures state { S.told → IsStateRead (S.seen store.old).content result }
    ensures control { IfOk result HasControl }
    ensures reads { Reads S.told halt_cause result (S.seen store.old) (S.seen store.new) }
{
    if has_files(alloc, store, Verb::Rebase)? {
        return read_rebase(alloc, store);
    }
    if has_files(alloc, store, Verb::CherryPick)? {
        return read_sequence(alloc, store);
    }
    Ok(Found::Nothing)
}
