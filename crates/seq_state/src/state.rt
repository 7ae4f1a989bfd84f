//! The files of a list are written.

ghost use Rattle.std.specs.List.{AllByRecursion, list_any};
ghost use Rattle.std.specs.Prelude.{◌≡◌, ℕ, List, ◌++◌, IfOk, OnOk};
ghost use Rattle.message_text.specs.Chain.{IsChain as IsChainOfItems};
ghost use Rattle.object_text.specs.Commits.{line as line_text};
ghost use Rattle.reading.specs.State.{begun as begun_by, chain_files as chain_files_of, chain_items as chain_items_of, is_edited as is_edited_kind, kept_files as kept_files_of, with_state as with_state_of};
ghost use Rattle.seq_base.specs.StorePaths.{IsStorePath};
ghost use Rattle.seq_outside.specs.Halts.{Gives, halt_cause};
ghost use Rattle.seq_outside.specs.Seen.{Reads, Writes, store_cause};
ghost use Rattle.seq_outside.specs.Writes.{HasStorePath};
ghost use Rattle.state_text.specs.Controls.{IsChain, IsTold};
ghost use Rattle.state_text.specs.Words.{verb_word};
ghost use Rattle.std.specs.Prelude.{◌∷◌, [], Ok, false};
ghost use Rattle.state_text.specs.States.{state_files as state_files_of};
ghost use Rattle.seq_state.specs.Found.{AreStopWrites, HasKinds, IsChainIfAny, item_named, without_last as without_last_of};

use crate::clearing::{list_files, write_all};
use message_text::{ChainItem, ChainKind, chain_text, kept_text};
use objects::read_commit;
use seq_base::{Bytes, Id};
use seq_outside::{Halt, Lack, Store, StoreError, Write};
use state_text::{Control, Verb, in_step_path, state_files, stop_writes};
use std::alloc::{AllocError, Global};

// ---- while an invocation runs

fn step_text(verb: Verb) -> &'static [u8]
    ensures { result.now ≡ line_text (verb_word verb) }
{
    match verb {
        Verb::Rebase => b"rebase\n",
        Verb::CherryPick => b"cherry-pick\n",
        Verb::Revert => b"revert\n",
    }
}

/// An invocation is at work.
#[tactic(auto, unfolding(reading::specs::State::begun))]
pub fn begin_step<S: Store>(
    alloc: Global,
    control: &Control,
    store: &mut S,
) -> Result<(), StoreError>
    ensures left { S.told → OnOk result ((S.seen store.new).content ≡ begun_by control.now (S.seen store.old).content) }
    ensures writes { Writes S.told store_cause result (S.seen store.old) (S.seen store.new) }
{
    store.put(alloc, in_step_path(control.verb), step_text(control.verb))
}

// ---- the texts of a chain

/// The message of a commit of a chain.
#[tactic(auto, unfolding(crate::specs::Found::item_named))]
fn chain_item<S: Store>(
    alloc: Global,
    kind: ChainKind,
    id: Id,
    store: &mut S,
) -> Result<ChainItem, Halt<Lack>>
    ensures gives { S.told → Gives (λ item. item) result (item_named (S.seen store.old).content (kind, id)) }
    ensures kind { IfOk result (λ item. item.kind ≡ kind) }
    ensures reads { Reads S.told halt_cause result (S.seen store.old) (S.seen store.new) }
{
    let commit = read_commit(alloc, store, id)?;
    Ok(ChainItem {
        kind,
        message: commit.message,
    })
}

/// The messages of a squash chain.
#[tactic(auto, using(crate::proofs::Messages::items_more, crate::proofs::Messages::items_lack, crate::proofs::Messages::all_items, crate::proofs::Messages::kinds_more))]
fn chain_items<S: Store>(
    alloc: Global,
    chain: &[(ChainKind, Id)],
    store: &mut S,
) -> Result<Vec<ChainItem>, Halt<Lack>>
    ensures gives { S.told → Gives (λ items. items.items) result (chain_items_of (S.seen store.old).content chain.now) }
    ensures kinds { IfOk result (λ items. HasKinds items.items chain.now) }
    ensures reads { Reads S.told halt_cause result (S.seen store.old) (S.seen store.new) }
{
    let mut items = Vec::new(alloc);
    let mut rest = chain;
    while let [named, after @ ..] = rest {
        let item = chain_item(alloc, named.0, named.1, store)?;
        items.push(item)?;
        rest = after;
    }
    Ok(items)
}

/// Whether the text of a chain with such a commit is edited when it is closed.
fn is_edited(kind: ChainKind) -> bool
    ensures { result ≡ is_edited_kind kind }
{
    match kind {
        ChainKind::Squash | ChainKind::KeepEdit => true,
        ChainKind::First | ChainKind::Fixup | ChainKind::Keep => false,
    }
}

fn has_edited(items: &[ChainItem]) -> bool
    ensures { result ≡ list_any (λ (item : ChainItem). is_edited_kind item.kind) items.now }
{
    items.iter().any(|item| is_edited(item.kind))
}

fn push_file(
    alloc: Global,
    path: &[u8],
    text: Vec<u8>,
    files: &mut Vec<(Bytes, Bytes)>,
) -> Result<(), AllocError>
    ensures { OnOk result (files.new.items ≡ files.old.items ++ (path.now, text.items) ∷ []) }
{
    files.push((Bytes::from_vec(path.to_vec(alloc)?), Bytes::from_vec(text)))?;
    Ok(())
}

/// The text that is taken where no message is edited.
fn push_unedited(
    alloc: Global,
    items: &[ChainItem],
    files: &mut Vec<(Bytes, Bytes)>,
) -> Result<(), AllocError>
    requires chain { IsChainOfItems items.now }
    requires never { list_any (λ (item : ChainItem). is_edited_kind item.kind) items.now ≡ false }
    ensures { OnOk result (files.new.items ≡ files.old.items ++ kept_files_of items.now) }
{
    let text = kept_text(alloc, items)?;
    push_file(alloc, b".git/rebase-merge/message-fixup", text, files)?;
    Ok(())
}

#[tactic(auto, using(crate::proofs::Chains::edited))]
fn push_kept(
    alloc: Global,
    items: &[ChainItem],
    files: &mut Vec<(Bytes, Bytes)>,
) -> Result<(), AllocError>
    requires { IsChainOfItems items.now }
    ensures { OnOk result (files.new.items ≡ files.old.items ++ kept_files_of items.now) }
{
    if has_edited(items) {
        return Ok(());
    }
    push_unedited(alloc, items, files)
}

fn push_texts(
    alloc: Global,
    items: &[ChainItem],
    files: &mut Vec<(Bytes, Bytes)>,
) -> Result<(), AllocError>
    requires { IsChainOfItems items.now }
    ensures { OnOk result (files.new.items ≡ files.old.items ++ chain_files_of (Ok items.now)) }
{
    let text = chain_text(alloc, items)?;
    push_file(alloc, b".git/rebase-merge/message-squash", text, files)?;
    push_kept(alloc, items, files)?;
    Ok(())
}

#[tactic(auto, using(crate::proofs::Chains::no_files, crate::proofs::Chains::chain_if_some))]
fn push_chain_files(
    alloc: Global,
    items: &[ChainItem],
    files: &mut Vec<(Bytes, Bytes)>,
) -> Result<(), AllocError>
    requires { IsChainIfAny items.now }
    ensures { OnOk result (files.new.items ≡ files.old.items ++ chain_files_of (Ok items.now)) }
{
    if items.is_empty() {
        return Ok(());
    }
    push_texts(alloc, items, files)
}

/// The files of a control: those that it tells alone, and the texts of its chain, which are not there where one of its commits cannot be read.
#[tactic(auto, using(crate::proofs::Chains::items_chain, crate::proofs::Placing::all_paths, crate::proofs::Placing::control_paths))]
fn files_of<S: Store>(
    alloc: Global,
    control: &Control,
    store: &mut S,
) -> Result<Vec<(Bytes, Bytes)>, StoreError>
    requires told { IsTold control.now }
    requires chain { IsChain control.now.chain }
    ensures files { S.told → IfOk result (λ files. files.items ≡ state_files_of control.now ++ chain_files_of (chain_items_of (S.seen store.old).content control.now.chain)) }
    ensures paths { IfOk result (λ files. AllByRecursion (λ (f : List ℕ × List ℕ). IsStorePath f.0) files.items) }
    ensures reads { Reads S.told store_cause result (S.seen store.old) (S.seen store.new) }
{
    let mut files = state_files(alloc, control)?;
    match chain_items(alloc, control.chain.as_slice(), store) {
        Ok(items) => {
            push_chain_files(alloc, &items, &mut files)?;
            Ok(files)
        }
        Err(Halt::Stops(_lack)) => Ok(files),
        Err(Halt::Fault) => Err(StoreError::Failed),
        Err(Halt::Memory) => Err(StoreError::Memory),
    }
}

// ---- at a stop

#[tactic(auto, using(crate::proofs::Placing::stop_paths))]
fn writes_of<S: Store>(
    alloc: Global,
    control: &Control,
    store: &mut S,
) -> Result<Vec<Write>, StoreError>
    requires told { IsTold control.now }
    requires chain { IsChain control.now.chain }
    ensures paths { IfOk result (λ writes. AllByRecursion HasStorePath writes.items) }
    ensures writes { S.told → IfOk result (λ writes. AreStopWrites control.now (S.seen store.old).content writes.items) }
    ensures reads { Reads S.told store_cause result (S.seen store.old) (S.seen store.new) }
{
    let files = files_of(alloc, control, store)?;
    let found = list_files(alloc, store)?;
    Ok(stop_writes(alloc, control.verb, &files, &found)?)
}

/// The files of a list are those of the control, and no others. What says that an invocation is at work goes last.
#[tactic(auto, using(crate::proofs::Leaving::state_put))]
pub fn put_state<S: Store>(
    alloc: Global,
    control: &Control,
    store: &mut S,
) -> Result<(), StoreError>
    requires told { IsTold control.now }
    requires chain { IsChain control.now.chain }
    ensures left { S.told → OnOk result ((S.seen store.new).content ≡ with_state_of control.now (S.seen store.old).content) }
    ensures writes { Writes S.told store_cause result (S.seen store.old) (S.seen store.new) }
{
    let writes = writes_of(alloc, control, store)?;
    write_all(alloc, &writes, store)
}

// ---- at a start

fn without_last(writes: Vec<Write>) -> Vec<Write>
    ensures { result.items ≡ without_last_of writes.items }
{
    let mut writes = writes;
    let _last = writes.pop();
    writes
}

/// The same, and an invocation is at work: what says so goes first.
#[tactic(auto, using(crate::proofs::Leaving::state_begun, crate::proofs::Placing::front_paths))]
pub fn begin_state<S: Store>(
    alloc: Global,
    control: &Control,
    store: &mut S,
) -> Result<(), StoreError>
    requires told { IsTold control.now }
    requires chain { IsChain control.now.chain }
    ensures left { S.told → OnOk result ((S.seen store.new).content ≡ begun_by control.now (with_state_of control.now (S.seen store.old).content)) }
    ensures writes { Writes S.told store_cause result (S.seen store.old) (S.seen store.new) }
{
    let writes = writes_of(alloc, control, store)?;
    begin_step(alloc, control, store)?;
    write_all(alloc, &without_last(writes), store)
}
