//! The files of a control.

ghost use Rattle.std.specs.Prelude.{◌≡◌, IfOk};
ghost use Rattle.state_text.specs.Controls.{IsTold};
ghost use Rattle.state_text.specs.Places.{files_of as files_of_verb};
ghost use Rattle.state_text.specs.States.{files_among, state_files as files_of_control};
ghost use Rattle.state_text.specs.Texts.{amend_of, is_cherry_pick as is_cherry_pick_by, is_rebase as is_rebase_by, is_revert as is_revert_by, number_line, other_head_of, stopped_line, text_in, while_pending};

use crate::control::{Control, Form, Pending};
use crate::lines::{chain_of, ids_of, labels_of, pairs_of, put_number, todo_of, updates_of};
use crate::place::state_path;
use crate::state_file::StateFile;
use crate::texts::{
    control_text, head_name, id_text, kept, left_count, left_text, message_text, optional_id,
    opts_text, script_text_of,
};
use crate::verb::Verb;
use seq_base::{Bytes, Id};
use std::alloc::{AllocError, Global};

const REBASE_FILES: [StateFile; 24] = [
    StateFile::HeadName,
    StateFile::OrigHead,
    StateFile::Onto,
    StateFile::Interactive,
    StateFile::RebaseTodo,
    StateFile::Backup,
    StateFile::Done,
    StateFile::Msgnum,
    StateFile::End,
    StateFile::Message,
    StateFile::AuthorScript,
    StateFile::Amend,
    StateFile::StoppedSha,
    StateFile::CurrentFixups,
    StateFile::RewrittenList,
    StateFile::RewrittenPending,
    StateFile::RefsToDelete,
    StateFile::UpdateRefs,
    StateFile::Control,
    StateFile::MergeMsg,
    StateFile::MergeHead,
    StateFile::RebaseHead,
    StateFile::CherryPickHead,
    StateFile::RevertHead,
];

const SEQUENCER_FILES: [StateFile; 14] = [
    StateFile::Todo,
    StateFile::Done,
    StateFile::Head,
    StateFile::AbortSafety,
    StateFile::Opts,
    StateFile::Message,
    StateFile::AuthorScript,
    StateFile::StoppedSha,
    StateFile::Control,
    StateFile::MergeMsg,
    StateFile::MergeHead,
    StateFile::RebaseHead,
    StateFile::CherryPickHead,
    StateFile::RevertHead,
];

fn number_text(alloc: Global, number: u128) -> Result<Bytes, AllocError>
    ensures { IfOk result (λ text. text ≡ number_line number) }
{
    let mut out = Vec::new(alloc);
    put_number(&mut out, number)?;
    Ok(Bytes::from_vec(out))
}

/// The commit that a pending one takes the place of.
fn amended(pending: &Option<Pending>, head: Id) -> Option<Id>
    ensures { result ≡ amend_of pending.now head }
{
    match pending {
        Some(pending) => match pending.form {
            Form::Amend => Some(head),
            Form::New | Form::Merge(_) => None,
        },
        None => None,
    }
}

/// The second parent of a pending merge.
fn other_head(pending: &Option<Pending>) -> Option<Id>
    ensures { result ≡ other_head_of pending.now }
{
    match pending {
        Some(pending) => match pending.form {
            Form::Merge(other) => Some(other),
            Form::New | Form::Amend => None,
        },
        None => None,
    }
}

/// The commit at which a list stopped, where one is pending.
fn stopped_while_pending(control: &Control) -> Option<Id>
    ensures { result ≡ while_pending control.now.pending control.now.stopped_commit }
{
    match control.pending {
        Some(_) => control.stopped_commit,
        None => None,
    }
}

fn stopped_text(alloc: Global, told: bool, control: &Control) -> Result<Option<Bytes>, AllocError>
    ensures { IfOk result (λ text. text ≡ stopped_line told control.now) }
{
    if !told {
        return Ok(None);
    }
    optional_id(alloc, &stopped_while_pending(control))
}

fn is_rebase(verb: Verb) -> bool
    ensures { result ≡ is_rebase_by verb }
{
    matches!(verb, Verb::Rebase)
}

fn is_cherry_pick(verb: Verb) -> bool
    ensures { result ≡ is_cherry_pick_by verb }
{
    matches!(verb, Verb::CherryPick)
}

fn is_revert(verb: Verb) -> bool
    ensures { result ≡ is_revert_by verb }
{
    matches!(verb, Verb::Revert)
}

/// What the control has in the file, or None where it has none of that name.
#[tactic(auto, unfolding(crate::specs::Texts::text_in))]
pub fn file_text(
    alloc: Global,
    file: StateFile,
    control: &Control,
) -> Result<Option<Bytes>, AllocError>
    requires { IsTold control.now }
    ensures { IfOk result (λ text. text ≡ text_in file control.now) }
{
    match file {
        StateFile::HeadName => Ok(Some(head_name(alloc, &control.head_name)?)),
        StateFile::OrigHead | StateFile::Head => Ok(Some(id_text(alloc, &control.orig)?)),
        StateFile::Onto => Ok(Some(id_text(alloc, &control.onto)?)),
        StateFile::Interactive => Ok(Some(Bytes::from_vec(Vec::new(alloc)))),
        StateFile::RebaseTodo | StateFile::Todo => left_text(alloc, &control.left),
        StateFile::Backup => Ok(kept(Vec::from_slice(alloc, control.backup.as_slice())?)),
        StateFile::Done => Ok(kept(todo_of(alloc, control.done.as_slice())?)),
        StateFile::Msgnum => Ok(Some(number_text(alloc, control.done.as_slice().len() as u128)?)),
        StateFile::End => {
            let number = control.done.as_slice().len() as u128 + left_count(&control.left) as u128;
            Ok(Some(number_text(alloc, number)?))
        }
        StateFile::Message | StateFile::MergeMsg => message_text(alloc, &control.pending),
        StateFile::AuthorScript => script_text_of(alloc, &control.pending),
        StateFile::Amend => optional_id(alloc, &amended(&control.pending, control.stopped_head)),
        StateFile::StoppedSha => optional_id(alloc, &control.stopped_commit),
        StateFile::CurrentFixups => Ok(kept(chain_of(alloc, control.chain.as_slice())?)),
        StateFile::RewrittenList => Ok(kept(pairs_of(alloc, control.rewritten.as_slice())?)),
        StateFile::RewrittenPending => Ok(kept(ids_of(alloc, control.waiting.as_slice())?)),
        StateFile::RefsToDelete => Ok(kept(labels_of(alloc, control.labels.as_slice())?)),
        StateFile::UpdateRefs => Ok(kept(updates_of(alloc, control.updates.as_slice())?)),
        StateFile::Control => Ok(Some(control_text(alloc, control)?)),
        StateFile::AbortSafety => Ok(Some(id_text(alloc, &control.stopped_head)?)),
        StateFile::Opts => Ok(Some(opts_text(alloc, &control.options)?)),
        StateFile::MergeHead => optional_id(alloc, &other_head(&control.pending)),
        StateFile::RebaseHead => stopped_text(alloc, is_rebase(control.verb), control),
        StateFile::CherryPickHead => stopped_text(alloc, is_cherry_pick(control.verb), control),
        StateFile::RevertHead => stopped_text(alloc, is_revert(control.verb), control),
    }
}

/// The files of a verb that tell of a stopped list, in the order in which they are looked at.
pub fn files_of(verb: Verb) -> &'static [StateFile]
    ensures { result.now ≡ files_of_verb verb }
{
    match verb {
        Verb::Rebase => &REBASE_FILES,
        Verb::CherryPick | Verb::Revert => &SEQUENCER_FILES,
    }
}

fn files_among_of(
    alloc: Global,
    files: &[StateFile],
    control: &Control,
) -> Result<Vec<(Bytes, Bytes)>, AllocError>
    requires { IsTold control.now }
    ensures { IfOk result (λ all. all.items ≡ files_among files.now control.now) }
{
    let mut all = Vec::new(alloc);
    let mut rest = files;
    while let [file, after @ ..] = rest {
        if let Some(text) = file_text(alloc, *file, control)? {
            let path = Vec::from_slice(alloc, state_path(control.verb, *file))?;
            all.push((Bytes::from_vec(path), text))?;
        }
        rest = after;
    }
    Ok(all)
}

/// The files of a control, by their paths and what they hold, but for `message-squash` and `message-fixup`, which tell of the messages of
/// other commits. Each line of its todo, and its author, is one that some text spells.
#[tactic(auto, unfolding(crate::specs::States::state_files))]
pub fn state_files(alloc: Global, control: &Control) -> Result<Vec<(Bytes, Bytes)>, AllocError>
    requires { IsTold control.now }
    ensures { IfOk result (λ files. files.items ≡ files_of_control control.now) }
{
    files_among_of(alloc, files_of(control.verb), control)
}
