//! A pick: what it finds, what it makes, and its commit.

ghost use Rattle.std.specs.Prelude.{◌≡◌, IfOk};
ghost use Rattle.seq_model.specs.Changes.{Changes};
ghost use Rattle.index_file.specs.Entries.{IsInOrder};
ghost use Rattle.ref_text.specs.Heads.{IsHeadValue};
ghost use Rattle.seq_model.specs.Pick.{found as found_of, found_at, found_in, found_on};
ghost use Rattle.seq_model.specs.Picked.{finished, prepared, prepared_from};
ghost use Rattle.seq_outside.specs.Env.{IsZone};
ghost use Rattle.seq_outside.specs.Halts.{Gives, halt_cause};
ghost use Rattle.seq_outside.specs.Seen.{Reads, Writes};
ghost use Rattle.seq_outside.specs.Turns.{Turns};
ghost use Rattle.seq_pick.specs.Finding.{IsFound, finding_is};
ghost use Rattle.seq_pick.specs.Preparing.{IsReady, prepared_is};

use crate::committing::{Prepared, commit_pick};
use crate::making::make_merge;
use crate::merging::{Merging, merge};
use crate::unbuilt::refuse_unbuilt;
use config_text::Config;
use index_file::IndexEntry;
use ref_text::Head;
use seq_base::{Bytes, Id};
use seq_model::{Committer, Denial, Place};
use seq_outside::{Halt, Store};
use start_checks::{Basis, born, commit_by, committer, read_basis, want_repository};
use std::alloc::Global;

/// What a pick finds.
#[derive(Drop)]
pub struct Finding {
    /// What HEAD is.
    pub on: Head,
    /// The commit that it is at.
    pub head: Id,
    pub committer: Committer,
    pub merging: Merging,
}

/// What the pick of a commit finds on HEAD.
#[tactic(auto, unfolding(seq_model::specs::Pick::found_on))]
fn find_on<S: Store>(
    alloc: Global,
    vars: &[(Bytes, Bytes)],
    on: Head,
    head: Id,
    config: &Config,
    index: Vec<IndexEntry>,
    pick: Id,
    store: &mut S,
) -> Result<Finding, Halt<Denial>>
    requires on { IsHeadValue on }
    requires order { IsInOrder index.items }
    ensures gives { S.told → Gives finding_is result (found_on vars.now (S.seen store.old).content on head config.now index.items pick) }
    ensures found { IfOk result IsFound }
    ensures reads { Reads S.told halt_cause result (S.seen store.old) (S.seen store.new) }
{
    let committer = committer(alloc, vars, config)?;
    let merging = merge(alloc, head, index, pick, store)?;
    Ok(Finding {
        on,
        head,
        committer,
        merging,
    })
}

/// What the pick of the commit that a word names finds at a place.
#[tactic(auto, unfolding(seq_model::specs::Pick::found_at))]
fn find_at<S: Store>(
    alloc: Global,
    vars: &[(Bytes, Bytes)],
    word: &[u8],
    place: Place,
    config: &Config,
    index: Vec<IndexEntry>,
    store: &mut S,
) -> Result<Finding, Halt<Denial>>
    requires on { IsHeadValue place.head }
    requires order { IsInOrder index.items }
    ensures gives { S.told → Gives finding_is result (found_at vars.now word.now (S.seen store.old).content place config.now index.items) }
    ensures found { IfOk result IsFound }
    ensures reads { Reads S.told halt_cause result (S.seen store.old) (S.seen store.new) }
{
    let pick = commit_by(alloc, word, store)?;
    let head = born(place.tip)?;
    find_on(alloc, vars, place.head, head, config, index, pick, store)
}

/// The same, in a repository of which all is taken.
#[tactic(auto, unfolding(seq_model::specs::Pick::found_in))]
fn find_in<S: Store>(
    alloc: Global,
    vars: &[(Bytes, Bytes)],
    word: &[u8],
    store: &mut S,
) -> Result<Finding, Halt<Denial>>
    ensures gives { S.told → Gives finding_is result (found_in vars.now word.now (S.seen store.old).content) }
    ensures found { IfOk result IsFound }
    ensures reads { Reads S.told halt_cause result (S.seen store.old) (S.seen store.new) }
{
    let Basis {
        place,
        config,
        index,
    } = read_basis(alloc, store)?;
    find_at(alloc, vars, word, place, &config, index, store)
}

/// What the pick of the commit that a word names finds.
#[tactic(auto, unfolding(seq_model::specs::Pick::found))]
fn find<S: Store>(
    alloc: Global,
    vars: &[(Bytes, Bytes)],
    word: &[u8],
    store: &mut S,
) -> Result<Finding, Halt<Denial>>
    ensures gives { S.told → Gives finding_is result (found_of vars.now word.now (S.seen store.old).content) }
    ensures found { IfOk result IsFound }
    ensures reads { Reads S.told halt_cause result (S.seen store.old) (S.seen store.new) }
{
    want_repository(alloc, store)?;
    refuse_unbuilt(alloc, store)?;
    find_in(alloc, vars, word, store)
}

/// Makes what a pick makes before its commit.
#[tactic(auto, unfolding(seq_model::specs::Picked::prepared_from))]
fn prepare_found<S: Store>(
    alloc: Global,
    found: Finding,
    store: &mut S,
) -> Result<Prepared, Halt<Denial>>
    requires { IsFound found }
    ensures turns { S.told → Turns prepared_is result (prepared_from (finding_is found) (S.seen store.old).content) (S.seen store.new).content }
    ensures ready { IfOk result IsReady }
    ensures changes { S.told → Changes (S.seen store.old).content (S.seen store.new).content }
    ensures writes { Writes S.told halt_cause result (S.seen store.old) (S.seen store.new) }
{
    let tree = make_merge(alloc, &found.merging, store)?;
    Ok(Prepared {
        on: found.on,
        head: found.head,
        committer: found.committer,
        commit: found.merging.commit,
        tree,
    })
}

/// Makes what a pick of the commit that a word names makes before its commit: the trees, the index and the files, and the message
/// (git-cherry-pick(1)). Refused is what speaks against it, in the order in which it is looked at; the store may then have some of
/// these files, so whoever wants none runs it over a `DraftStore`.
#[tactic(auto, unfolding(seq_model::specs::Picked::prepared))]
pub fn prepare<S: Store>(
    alloc: Global,
    vars: &[(Bytes, Bytes)],
    word: &[u8],
    store: &mut S,
) -> Result<Prepared, Halt<Denial>>
    ensures turns { S.told → Turns prepared_is result (prepared vars.now word.now (S.seen store.old).content) (S.seen store.new).content }
    ensures ready { IfOk result IsReady }
    ensures changes { S.told → Changes (S.seen store.old).content (S.seen store.new).content }
    ensures writes { Writes S.told halt_cause result (S.seen store.old) (S.seen store.new) }
{
    let found = find(alloc, vars, word, store)?;
    prepare_found(alloc, found, store)
}

/// Makes the commit of a pick at a moment, moves HEAD to it, with its logs, and answers its id.
pub fn finish<S: Store>(
    alloc: Global,
    pick: &Prepared,
    zone: [u8; 5],
    secs: i64,
    store: &mut S,
) -> Result<Id, Halt<Denial>>
    requires ready { IsReady pick.now }
    requires zone { IsZone zone }
    ensures turns { S.told → Turns (λ id. id) result
        (finished (prepared_is pick.now) zone secs (S.seen store.old).content)
        (S.seen store.new).content }
    ensures changes { S.told → Changes (S.seen store.old).content (S.seen store.new).content }
    ensures writes { Writes S.told halt_cause result (S.seen store.old) (S.seen store.new) }
{
    commit_pick(alloc, pick, zone, secs, store)
}
