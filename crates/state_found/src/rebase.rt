//! A rebase, as its files tell it.

ghost use Rattle.std.specs.Prelude.{◌≡◌, IfOk, is_some, unwrap_or};
ghost use Rattle.state_found.specs.Recalled.{IsRebaseIn, IsRebaseOf, rebase_options as rebase_options_by, rebase_pending as rebase_pending_by};
ghost use Rattle.state_reading.specs.Recalls.{bytes_at as bytes_found};

use crate::pending::{form_of, is_some_told, is_told, pending_of, told_form};
use ident_text::Ident;
use seq_base::{Bytes, Id};
use state_reading::{
    Settings, bytes_at, read_author, read_chain, read_head_name, read_id, read_labels, read_lines,
    read_optional_id, read_rewritten, read_settings, read_updates, read_waiting,
};
use state_text::{Control, Left, Options, Pending, StateFile, Verb};
use std::alloc::{AllocError, Global};

fn rebase_options(told: &Settings) -> Options
    ensures { result ≡ rebase_options_by told.now }
{
    Options {
        ff: told.ff,
        empty: told.empty,
        reschedule: told.reschedule,
        mainline: None,
        edit: false,
        record_origin: false,
        allow_empty: false,
    }
}

fn head_of(amend: Option<Id>, head: Id) -> Id
    ensures { result ≡ unwrap_or amend head }
{
    match amend {
        Some(id) => id,
        None => head,
    }
}

fn owned_at(
    alloc: Global,
    found: &[(StateFile, Option<Bytes>)],
    file: StateFile,
) -> Result<Bytes, AllocError>
    ensures { IfOk result (λ bytes. bytes ≡ bytes_found found.now file) }
{
    Ok(Bytes::from_vec(Vec::from_slice(alloc, bytes_at(found, file))?))
}

fn rebase_pending(
    alloc: Global,
    found: &[(StateFile, Option<Bytes>)],
    amend: Option<Id>,
    author: Option<Ident>,
    told: Settings,
) -> Result<Option<Pending>, AllocError>
    ensures { IfOk result (λ pending. pending ≡ rebase_pending_by found.now amend author told) }
{
    let message = owned_at(alloc, found, StateFile::Message)?;
    let there = is_told(
        message.as_slice(),
        &author,
        amend.is_some() || is_some_told(&told.pending),
    );
    let form = form_of(amend, told_form(&told.pending));
    Ok(pending_of(there, form, message, author, told))
}

fn rebase_of(
    alloc: Global,
    found: &[(StateFile, Option<Bytes>)],
    amend: Option<Id>,
    author: Option<Ident>,
    told: Settings,
) -> Result<Control, AllocError>
    ensures { IfOk result (λ k. IsRebaseOf found.now amend author told k) }
{
    let options = rebase_options(&told);
    let stop = told.stop;
    let stopped_head = head_of(amend, told.head);
    let pending = rebase_pending(alloc, found, amend, author, told)?;
    Ok(Control {
        verb: Verb::Rebase,
        options,
        head_name: read_head_name(alloc, bytes_at(found, StateFile::HeadName))?,
        orig: read_id(bytes_at(found, StateFile::OrigHead))?,
        onto: read_id(bytes_at(found, StateFile::Onto))?,
        done: read_lines(alloc, bytes_at(found, StateFile::Done))?,
        left: Left::Raw(Bytes::from_vec(Vec::new(alloc))),
        backup: owned_at(alloc, found, StateFile::Backup)?,
        labels: read_labels(alloc, bytes_at(found, StateFile::RefsToDelete))?,
        updates: read_updates(alloc, bytes_at(found, StateFile::UpdateRefs))?,
        rewritten: read_rewritten(alloc, bytes_at(found, StateFile::RewrittenList))?,
        waiting: read_waiting(alloc, bytes_at(found, StateFile::RewrittenPending))?,
        chain: read_chain(alloc, bytes_at(found, StateFile::CurrentFixups))?,
        stop,
        stopped_head,
        stopped_commit: read_optional_id(bytes_at(found, StateFile::StoppedSha))?,
        pending,
    })
}

/// A rebase, each part of which is what its file was written of; nothing is left of it.
#[tactic(auto, using(crate::proofs::RebaseLaws::rebase_is))]
pub fn rebase_in(alloc: Global, found: &[(StateFile, Option<Bytes>)]) -> Result<Control, AllocError>
    ensures { IfOk result (λ k. IsRebaseIn found.now k) }
{
    let amend = read_optional_id(bytes_at(found, StateFile::Amend))?;
    let author = read_author(alloc, bytes_at(found, StateFile::AuthorScript))?;
    let told = read_settings(alloc, bytes_at(found, StateFile::Control))?;
    rebase_of(alloc, found, amend, author, told)
}
