//! A cherry-pick or a revert, as its files tell it.

ghost use Rattle.std.specs.Prelude.{◌≡◌, IfOk};
ghost use Rattle.state_found.specs.Recalled.{IsSequenceIn, IsSequenceOf, is_plain as is_plain_by, sequence_empty as sequence_empty_by, sequence_options as sequence_options_by, sequence_pending as sequence_pending_by, sequence_verb as sequence_verb_by};

use crate::pending::{is_some_told, is_told, pending_of, told_form};
use ident_text::Ident;
use seq_base::Bytes;
use state_reading::{
    SetOptions, Settings, bytes_at, read_author, read_id, read_lines, read_optional_id, read_opts,
    read_settings,
};
use state_text::{
    Chain, Control, Empty, IdPairs, Ids, Labels, Left, Options, Pending, RefUpdates, StateFile,
    Verb,
};
use std::alloc::{AllocError, Global};

fn is_plain(chosen: &SetOptions) -> bool
    ensures { result ≡ is_plain_by chosen.now }
{
    !chosen.record_origin && !chosen.allow_empty
}

/// Options that a revert has not are a cherry-pick's.
fn sequence_verb(verb: Verb, plain: bool) -> Verb
    ensures { result ≡ sequence_verb_by verb plain }
{
    match verb {
        Verb::Rebase | Verb::CherryPick => Verb::CherryPick,
        Verb::Revert => {
            if plain {
                Verb::Revert
            } else {
                Verb::CherryPick
            }
        }
    }
}

fn sequence_empty(verb: Verb, empty: Empty) -> Empty
    ensures { result ≡ sequence_empty_by verb empty }
{
    match verb {
        Verb::Rebase | Verb::CherryPick => empty,
        Verb::Revert => Empty::Stop,
    }
}

fn sequence_options(verb: Verb, told: &Settings, chosen: &SetOptions) -> Options
    ensures { result ≡ sequence_options_by verb told.now chosen.now }
{
    Options {
        ff: false,
        empty: sequence_empty(verb, told.empty),
        reschedule: false,
        mainline: chosen.mainline,
        edit: chosen.edit,
        record_origin: chosen.record_origin,
        allow_empty: chosen.allow_empty,
    }
}

fn sequence_pending(
    alloc: Global,
    found: &[(StateFile, Option<Bytes>)],
    author: Option<Ident>,
    told: Settings,
) -> Result<Option<Pending>, AllocError>
    ensures { IfOk result (λ pending. pending ≡ sequence_pending_by found.now author told) }
{
    let message = Vec::from_slice(alloc, bytes_at(found, StateFile::Message))?;
    let there = is_told(message.as_slice(), &author, is_some_told(&told.pending));
    let form = told_form(&told.pending);
    Ok(pending_of(there, form, Bytes::from_vec(message), author, told))
}

fn sequence_of(
    alloc: Global,
    found: &[(StateFile, Option<Bytes>)],
    author: Option<Ident>,
    told: Settings,
    chosen: SetOptions,
) -> Result<Control, AllocError>
    ensures { IfOk result (λ k. IsSequenceOf found.now author told chosen k) }
{
    let verb = sequence_verb(told.verb, is_plain(&chosen));
    let options = sequence_options(verb, &told, &chosen);
    let stop = told.stop;
    let orig = read_id(bytes_at(found, StateFile::Head))?;
    let pending = sequence_pending(alloc, found, author, told)?;
    Ok(Control {
        verb,
        options,
        head_name: None,
        orig,
        onto: orig,
        done: read_lines(alloc, bytes_at(found, StateFile::Done))?,
        left: Left::Lines(read_lines(alloc, bytes_at(found, StateFile::Todo))?),
        backup: Bytes::from_vec(Vec::new(alloc)),
        labels: Labels::from_vec(Vec::new(alloc)),
        updates: RefUpdates::from_vec(Vec::new(alloc)),
        rewritten: IdPairs::from_vec(Vec::new(alloc)),
        waiting: Ids::from_vec(Vec::new(alloc)),
        chain: Chain::from_vec(Vec::new(alloc)),
        stop,
        stopped_head: read_id(bytes_at(found, StateFile::AbortSafety))?,
        stopped_commit: read_optional_id(bytes_at(found, StateFile::StoppedSha))?,
        pending,
    })
}

/// A cherry-pick or a revert, each part of which is what its file was written of.
#[tactic(auto, using(crate::proofs::SequenceLaws::sequence_is))]
pub fn sequence_in(
    alloc: Global,
    found: &[(StateFile, Option<Bytes>)],
) -> Result<Control, AllocError>
    ensures { IfOk result (λ k. IsSequenceIn found.now k) }
{
    let author = read_author(alloc, bytes_at(found, StateFile::AuthorScript))?;
    let told = read_settings(alloc, bytes_at(found, StateFile::Control))?;
    let chosen = read_opts(bytes_at(found, StateFile::Opts))?;
    sequence_of(alloc, found, author, told, chosen)
}
