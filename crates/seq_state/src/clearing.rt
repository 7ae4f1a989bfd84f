//! Nothing is left of a list's state.

ghost use Rattle.std.specs.FinMap as map;
ghost use Rattle.std.specs.List.{AllByRecursion, filter, list_any};
ghost use Rattle.std.specs.Prelude.{◌≡◌, ◌∷◌, [], ◌++◌, codes, IfOk, IsErrOf, Ok, OnOk, not};
ghost use Rattle.reading.specs.State.{is_label as is_label_of, repacked, without_files as without_files_of, without_labels, without_state as without_state_of};
ghost use Rattle.ref_store.specs.Values.{packed_at};
ghost use Rattle.ref_text.specs.Packed.{ArePackedNames};
ghost use Rattle.seq_base.specs.StorePaths.{IsStorePath};
ghost use Rattle.seq_outside.specs.Seen.{Reads, Writes, store_cause};
ghost use Rattle.seq_outside.specs.Writes.{HasStorePath, after, written};
ghost use Rattle.seq_base.specs.World.{is_below};
ghost use Rattle.seq_base.specs.StatePaths.{state_heads};
ghost use Rattle.seq_state.specs.Found.{HoldsListFiles, HoldsStateFiles, IsRemoval};

use ref_store::packed_refs;
use ref_text::packed_text;
use seq_base::{Bytes, Id, lies_below};
use seq_outside::{Halt, Store, StoreError, Write};
use state_text::{Verb, end_writes};
use std::alloc::{AllocError, Global};

fn write_one<S: Store>(alloc: Global, write: &Write, store: &mut S) -> Result<(), StoreError>
    requires { HasStorePath write.now }
    ensures made { S.told → OnOk result ((S.seen store.new).content ≡ after (S.seen store.old).content write.now) }
    ensures removed { IsRemoval write.now → IsErrOf result StoreError.Blocked → ⊥ }
    ensures writes { Writes S.told store_cause result (S.seen store.old) (S.seen store.new) }
{
    match write {
        Write::Put { path, bytes } => store.put(alloc, path.as_slice(), bytes.as_slice()),
        Write::Remove { path } => {
            let _was_there = store.remove(alloc, path.as_slice())?;
            Ok(())
        }
    }
}

/// Makes writes one after another.
pub fn write_all<S: Store>(alloc: Global, writes: &[Write], store: &mut S) -> Result<(), StoreError>
    requires { AllByRecursion HasStorePath writes.now }
    ensures made { S.told → OnOk result ((S.seen store.new).content ≡ written (S.seen store.old).content writes.now) }
    ensures removed { AllByRecursion IsRemoval writes.now → IsErrOf result StoreError.Blocked → ⊥ }
    ensures writes { Writes S.told store_cause result (S.seen store.old) (S.seen store.new) }
{
    let mut rest = writes;
    while let [write, after @ ..] = rest {
        write_one(alloc, write, store)?;
        rest = after;
    }
    Ok(())
}

fn is_label(name: &[u8]) -> bool
    ensures { result ≡ is_below (codes "refs/rewritten") name.now }
{
    lies_below(b"refs/rewritten", name)
}

fn has_label(refs: &[(Bytes, Id)]) -> bool
    ensures { result ≡ list_any is_label_of refs.now }
{
    refs.iter().any(|(name, _id)| is_label(name.as_slice()))
}

/// The others.
fn without_those(alloc: Global, refs: Vec<(Bytes, Id)>) -> Result<Vec<(Bytes, Id)>, AllocError>
    ensures { IfOk result (λ others. others.items ≡ filter (λ ref. not (is_label_of ref)) refs.items) }
{
    let mut others = Vec::new(alloc);
    for named in refs {
        if !is_label(named.0.as_slice()) {
            others.push(named)?;
        }
    }
    Ok(others)
}

/// Packed labels are gone.
#[tactic(auto, using(crate::proofs::Labels::filtered_names, crate::proofs::Packed::packed_free))]
fn repack<S: Store>(alloc: Global, refs: Vec<(Bytes, Id)>, store: &mut S) -> Result<(), StoreError>
    requires names { ArePackedNames refs.items }
    requires found { S.told → packed_at (S.seen store.old).content ≡ Ok refs.items }
    ensures free { S.told → IsErrOf result StoreError.Blocked → ⊥ }
    ensures left { S.told → OnOk result ((S.seen store.new).content ≡ repacked refs.items (S.seen store.old).content) }
    ensures writes { Writes S.told store_cause result (S.seen store.old) (S.seen store.new) }
{
    if !has_label(&refs) {
        return Ok(());
    }
    let others = without_those(alloc, refs)?;
    let text = packed_text(alloc, &others)?;
    store.put(alloc, b".git/packed-refs", &text)
}

/// Packed labels are gone; packed refs that cannot be read are left alone.
fn clear_labels<S: Store>(alloc: Global, store: &mut S) -> Result<(), StoreError>
    ensures free { S.told → IsErrOf result StoreError.Blocked → ⊥ }
    ensures left { S.told → OnOk result ((S.seen store.new).content ≡ without_labels (packed_at (S.seen store.old).content) (S.seen store.old).content) }
    ensures writes { Writes S.told store_cause result (S.seen store.old) (S.seen store.new) }
{
    match packed_refs(alloc, store) {
        Ok(refs) => repack(alloc, refs, store),
        Err(Halt::Stops(_fault)) => Ok(()),
        Err(Halt::Fault) => Err(StoreError::Failed),
        Err(Halt::Memory) => Err(StoreError::Memory),
    }
}

/// The paths of the files below the folders of a list.
#[tactic(auto, using(crate::proofs::Listing::list_found, crate::proofs::Placing::all_both, crate::proofs::Placing::heads_good))]
pub fn list_files<S: Store>(alloc: Global, store: &mut S) -> Result<Vec<Bytes>, StoreError>
    ensures paths { IfOk result (λ paths. AllByRecursion IsStorePath paths.items) }
    ensures found { S.told → IfOk result (λ paths. HoldsListFiles (S.seen store.old).content paths.items) }
    ensures reads { Reads S.told store_cause result (S.seen store.old) (S.seen store.new) }
{
    let mut paths = store.list(alloc, b".git/rebase-merge")?;
    push_paths(&mut paths, store.list(alloc, b".git/sequencer")?)?;
    push_heads(alloc, &mut paths)?;
    Ok(paths)
}

fn push_paths(paths: &mut Vec<Bytes>, others: Vec<Bytes>) -> Result<(), AllocError>
    ensures { OnOk result (paths.new.items ≡ paths.old.items ++ others.items) }
{
    let mut others = others;
    paths.append(&mut others)?;
    Ok(())
}

fn push_head(alloc: Global, path: &[u8], paths: &mut Vec<Bytes>) -> Result<(), AllocError>
    ensures { OnOk result (paths.new.items ≡ paths.old.items ++ path.now ∷ []) }
{
    paths.push(Bytes::from_vec(path.to_vec(alloc)?))?;
    Ok(())
}

fn push_heads(alloc: Global, paths: &mut Vec<Bytes>) -> Result<(), AllocError>
    ensures { OnOk result (paths.new.items ≡ paths.old.items ++ state_heads) }
{
    push_head(alloc, b".git/MERGE_MSG", paths)?;
    push_head(alloc, b".git/MERGE_HEAD", paths)?;
    push_head(alloc, b".git/REBASE_HEAD", paths)?;
    push_head(alloc, b".git/CHERRY_PICK_HEAD", paths)?;
    push_head(alloc, b".git/REVERT_HEAD", paths)?;
    Ok(())
}

/// The same, and those of the labels.
#[tactic(auto, using(crate::proofs::Listing::state_found, crate::proofs::Placing::all_both))]
fn state_paths<S: Store>(alloc: Global, store: &mut S) -> Result<Vec<Bytes>, StoreError>
    ensures paths { IfOk result (λ paths. AllByRecursion IsStorePath paths.items) }
    ensures found { S.told → IfOk result (λ paths. HoldsStateFiles (S.seen store.old).content paths.items) }
    ensures reads { Reads S.told store_cause result (S.seen store.old) (S.seen store.new) }
{
    let mut paths = list_files(alloc, store)?;
    push_paths(&mut paths, store.list(alloc, b".git/refs/rewritten")?)?;
    Ok(paths)
}

/// No file of a list is there, and no loose label. What tells where the branch was goes last.
#[tactic(auto, using(crate::proofs::Leaving::end_is, crate::proofs::Placing::end_paths, crate::proofs::Placing::end_removals))]
pub fn clear_files<S: Store>(alloc: Global, verb: Verb, store: &mut S) -> Result<(), StoreError>
    ensures free { IsErrOf result StoreError.Blocked → ⊥ }
    ensures left { S.told → OnOk result ((S.seen store.new).content ≡ without_files_of (S.seen store.old).content) }
    ensures writes { Writes S.told store_cause result (S.seen store.old) (S.seen store.new) }
{
    let found = state_paths(alloc, store)?;
    let writes = end_writes(alloc, verb, &found)?;
    write_all(alloc, &writes, store)
}

/// Nothing is left of a list, nor any label.
#[tactic(auto, unfolding(reading::specs::State::without_state))]
pub fn clear_state<S: Store>(alloc: Global, verb: Verb, store: &mut S) -> Result<(), StoreError>
    ensures free { S.told → IsErrOf result StoreError.Blocked → ⊥ }
    ensures left { S.told → OnOk result ((S.seen store.new).content ≡ without_state_of (S.seen store.old).content) }
    ensures writes { Writes S.told store_cause result (S.seen store.old) (S.seen store.new) }
{
    clear_labels(alloc, store)?;
    clear_files(alloc, verb, store)
}
