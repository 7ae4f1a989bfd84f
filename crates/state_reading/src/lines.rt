//! Files of lines.

ghost use Rattle.std.specs.Prelude.{◌≡◌, IfOk, codes};
ghost use Rattle.std.specs.List.{AllByRecursion, filter_map, list_all};
ghost use Rattle.message_text.specs.Kinds.{is_first as is_first_kind};
ghost use Rattle.seq_base.specs.Ids.{IsId};
ghost use Rattle.state_reading.specs.Lines.{AreItems, AreUpdates, IsIdPair, are_ordered as are_ordered_by, behind, chain_of as chain_of_items, fixup_at as fixup_at_line, goes_on, id_at as id_at_front, ids_text, is_before_first as is_before_first_by, is_chain as is_chain_by, item_at as item_at_line, item_behind as item_behind_key, items_text, label_at as label_at_line, labels_text, lines_of as lines_of_text, ordered_of as ordered_of_updates, pair_at as pair_at_line, pair_behind as pair_behind_id, pairs_text, update_at as update_at_lines, updates_at, updates_text, value_of as value_of_id};
ghost use Rattle.state_reading.specs.Recalls.{Recalls};
ghost use Rattle.state_text.specs.Controls.{IsLabel};

use crate::keys::{behind_of, id_at, owned};
use grammar::ReadError;
use ident_text::id_of;
use message_text::ChainKind;
use seq_base::{Bytes, Id, comes_before, is_ref_name};
use state_text::{Chain, IdPairs, Ids, Labels, RefUpdate, RefUpdates};
use std::alloc::{AllocError, Global};

/// The lines that a text ends, each without its line feed.
pub fn lines_of(alloc: Global, bytes: &[u8]) -> Result<Vec<Bytes>, AllocError>
    ensures { IfOk result (λ lines. lines.items ≡ lines_of_text bytes.now) }
{
    let mut lines = Vec::new(alloc);
    let mut line = Vec::new(alloc);
    let mut rest = bytes;
    while let [b, after @ ..] = rest {
        if *b == b'\n' {
            lines.push(Bytes::from_vec(line))?;
            line = Vec::new(alloc);
        } else {
            line.push(*b)?;
        }
        rest = after;
    }
    Ok(lines)
}

fn ids_in(alloc: Global, lines: &[Bytes]) -> Result<Vec<Id>, AllocError>
    ensures { IfOk result (λ ids. ids.items ≡ filter_map id_at_front lines.now) }
{
    let mut ids = Vec::new(alloc);
    let mut rest = lines;
    while let [line, after @ ..] = rest {
        if let Some(id) = id_at(line.as_slice())? {
            ids.push(id)?;
        }
        rest = after;
    }
    Ok(ids)
}

fn ids_of(alloc: Global, bytes: &[u8]) -> Result<Vec<Id>, AllocError>
    ensures { IfOk result (λ ids. ids.items ≡ filter_map id_at_front (lines_of_text bytes.now)) }
{
    let lines = lines_of(alloc, bytes)?;
    ids_in(alloc, &lines)
}

/// The commits that wait to be paired, as `rewritten-pending` has them.
pub fn read_waiting(alloc: Global, bytes: &[u8]) -> Result<Ids, AllocError>
    ensures { IfOk result (λ ids. Recalls (AllByRecursion IsId) ids_text bytes.now ids) }
{
    let ids = ids_of(alloc, bytes)?;
    Ok(Ids::from_vec(ids))
}

fn pair_behind(old: Id, rest: &[u8]) -> Result<Option<(Id, Id)>, AllocError>
    ensures { IfOk result (λ found. found ≡ pair_behind_id old rest.now) }
{
    match rest {
        [_, new @ ..] => match id_at(new)? {
            Some(new) => Ok(Some((old, new))),
            None => Ok(None),
        },
        [] => Ok(None),
    }
}

fn pair_at(line: &[u8]) -> Result<Option<(Id, Id)>, AllocError>
    ensures { IfOk result (λ found. found ≡ pair_at_line line.now) }
{
    match id_of(line) {
        Ok((old, rest)) => pair_behind(old, rest),
        Err(ReadError::Memory) => Err(AllocError),
        Err(ReadError::Stopped { .. }) => Ok(None),
    }
}

fn pairs_in(alloc: Global, lines: &[Bytes]) -> Result<Vec<(Id, Id)>, AllocError>
    ensures { IfOk result (λ pairs. pairs.items ≡ filter_map pair_at_line lines.now) }
{
    let mut pairs = Vec::new(alloc);
    let mut rest = lines;
    while let [line, after @ ..] = rest {
        if let Some(pair) = pair_at(line.as_slice())? {
            pairs.push(pair)?;
        }
        rest = after;
    }
    Ok(pairs)
}

fn pairs_of(alloc: Global, bytes: &[u8]) -> Result<Vec<(Id, Id)>, AllocError>
    ensures { IfOk result (λ pairs. pairs.items ≡ filter_map pair_at_line (lines_of_text bytes.now)) }
{
    let lines = lines_of(alloc, bytes)?;
    pairs_in(alloc, &lines)
}

/// For each commit the one that took its place, as `rewritten-list` has them.
pub fn read_rewritten(alloc: Global, bytes: &[u8]) -> Result<IdPairs, AllocError>
    ensures { IfOk result (λ pairs. Recalls (AllByRecursion IsIdPair) pairs_text bytes.now pairs) }
{
    let pairs = pairs_of(alloc, bytes)?;
    Ok(IdPairs::from_vec(pairs))
}

fn name_behind(alloc: Global, line: &[u8]) -> Result<Option<Bytes>, AllocError>
    ensures { IfOk result (λ found. found ≡ behind (codes "refs/rewritten/") line.now) }
{
    match behind_of(b"refs/rewritten/", line)? {
        Some(name) => Ok(Some(owned(alloc, name)?)),
        None => Ok(None),
    }
}

fn label_at(alloc: Global, line: &[u8]) -> Result<Option<Bytes>, AllocError>
    ensures { IfOk result (λ found. found ≡ label_at_line line.now) }
{
    if is_ref_name(line) {
        name_behind(alloc, line)
    } else {
        Ok(None)
    }
}

fn labels_in(alloc: Global, lines: &[Bytes]) -> Result<Vec<Bytes>, AllocError>
    ensures { IfOk result (λ labels. labels.items ≡ filter_map label_at_line lines.now) }
{
    let mut labels = Vec::new(alloc);
    let mut rest = lines;
    while let [line, after @ ..] = rest {
        if let Some(label) = label_at(alloc, line.as_slice())? {
            labels.push(label)?;
        }
        rest = after;
    }
    Ok(labels)
}

fn labels_of(alloc: Global, bytes: &[u8]) -> Result<Vec<Bytes>, AllocError>
    ensures { IfOk result (λ labels. labels.items ≡ filter_map label_at_line (lines_of_text bytes.now)) }
{
    let lines = lines_of(alloc, bytes)?;
    labels_in(alloc, &lines)
}

/// The labels that were set, as `refs-to-delete` has their refs.
pub fn read_labels(alloc: Global, bytes: &[u8]) -> Result<Labels, AllocError>
    ensures { IfOk result (λ labels. Recalls (AllByRecursion IsLabel) labels_text bytes.now labels) }
{
    let labels = labels_of(alloc, bytes)?;
    Ok(Labels::from_vec(labels))
}

fn item_behind(
    kind: ChainKind,
    key: &[u8],
    line: &[u8],
) -> Result<Option<(ChainKind, Id)>, AllocError>
    ensures { IfOk result (λ found. found ≡ item_behind_key kind key.now line.now) }
{
    match behind_of(key, line)? {
        Some(rest) => match id_at(rest)? {
            Some(id) => Ok(Some((kind, id))),
            None => Ok(None),
        },
        None => Ok(None),
    }
}

fn fixup_at(line: &[u8]) -> Result<Option<(ChainKind, Id)>, AllocError>
    ensures { IfOk result (λ found. found ≡ fixup_at_line line.now) }
{
    if let Some(item) = item_behind(ChainKind::Fixup, b"fixup ", line)? {
        return Ok(Some(item));
    }
    if let Some(item) = item_behind(ChainKind::Keep, b"fixup -C ", line)? {
        return Ok(Some(item));
    }
    item_behind(ChainKind::KeepEdit, b"fixup -c ", line)
}

fn item_at(line: &[u8]) -> Result<Option<(ChainKind, Id)>, AllocError>
    ensures { IfOk result (λ found. found ≡ item_at_line line.now) }
{
    if let Some(item) = item_behind(ChainKind::First, b"pick ", line)? {
        return Ok(Some(item));
    }
    if let Some(item) = item_behind(ChainKind::Squash, b"squash ", line)? {
        return Ok(Some(item));
    }
    fixup_at(line)
}

fn items_in(alloc: Global, lines: &[Bytes]) -> Result<Vec<(ChainKind, Id)>, AllocError>
    ensures { IfOk result (λ items. items.items ≡ filter_map item_at_line lines.now) }
{
    let mut items = Vec::new(alloc);
    let mut rest = lines;
    while let [line, after @ ..] = rest {
        if let Some(item) = item_at(line.as_slice())? {
            items.push(item)?;
        }
        rest = after;
    }
    Ok(items)
}

fn is_first(kind: ChainKind) -> bool
    ensures { result ≡ is_first_kind kind }
{
    matches!(kind, ChainKind::First)
}

fn none_is_first(items: &[(ChainKind, Id)]) -> bool
    ensures { result ≡ list_all goes_on items.now }
{
    items.iter().all(|item| !is_first(item.0))
}

fn is_chain(items: &[(ChainKind, Id)]) -> bool
    ensures { result ≡ is_chain_by items.now }
{
    match items {
        [item, after @ ..] => is_first(item.0) && none_is_first(after),
        [] => true,
    }
}

fn chain_of(alloc: Global, bytes: &[u8]) -> Result<Vec<(ChainKind, Id)>, AllocError>
    ensures { IfOk result (λ items. items.items ≡ chain_of_items (filter_map item_at_line (lines_of_text bytes.now))) }
{
    let lines = lines_of(alloc, bytes)?;
    let items = items_in(alloc, &lines)?;
    if is_chain(&items) {
        Ok(items)
    } else {
        Ok(Vec::new(alloc))
    }
}

/// The commits of a squash chain, as `current-fixups` has them: the first stands first, and only there.
pub fn read_chain(alloc: Global, bytes: &[u8]) -> Result<Chain, AllocError>
    ensures { IfOk result (λ items. Recalls AreItems items_text bytes.now items) }
{
    let items = chain_of(alloc, bytes)?;
    Ok(Chain::from_vec(items))
}

/// An id of zeros alone is no value.
fn value_of(id: Id) -> Option<Id>
    ensures { result ≡ value_of_id id }
{
    if id.bytes() == [0; 20].as_slice() {
        None
    } else {
        Some(id)
    }
}

fn update_at(
    alloc: Global,
    name: &[u8],
    expected: &[u8],
    new: &[u8],
) -> Result<Option<RefUpdate>, AllocError>
    ensures { IfOk result (λ found. found ≡ update_at_lines name.now expected.now new.now) }
{
    if !is_ref_name(name) {
        return Ok(None);
    }
    let Some(expected) = id_at(expected)? else {
        return Ok(None);
    };
    let Some(new) = id_at(new)? else {
        return Ok(None);
    };
    Ok(Some(RefUpdate {
        name: owned(alloc, name)?,
        expected: value_of(expected),
        new: value_of(new),
    }))
}

fn updates_in(alloc: Global, lines: &[Bytes]) -> Result<Vec<RefUpdate>, AllocError>
    ensures { IfOk result (λ updates. updates.items ≡ updates_at lines.now) }
{
    let mut updates = Vec::new(alloc);
    let mut rest = lines;
    while let [name, expected, new, after @ ..] = rest {
        if let Some(update) = update_at(
            alloc,
            name.as_slice(),
            expected.as_slice(),
            new.as_slice(),
        )? {
            updates.push(update)?;
        }
        rest = after;
    }
    Ok(updates)
}

fn is_before_first(name: &[u8], updates: &[RefUpdate]) -> bool
    ensures { result ≡ is_before_first_by name.now updates.now }
{
    match updates {
        [update, ..] => comes_before(name, update.name.as_slice()),
        [] => true,
    }
}

fn are_ordered(updates: &[RefUpdate]) -> bool
    ensures { result ≡ are_ordered_by updates.now }
{
    let mut rest = updates;
    while let [update, after @ ..] = rest {
        if !is_before_first(update.name.as_slice(), after) {
            return false;
        }
        rest = after;
    }
    true
}

fn updates_of(alloc: Global, bytes: &[u8]) -> Result<Vec<RefUpdate>, AllocError>
    ensures { IfOk result (λ updates. updates.items ≡ ordered_of_updates (updates_at (lines_of_text bytes.now))) }
{
    let lines = lines_of(alloc, bytes)?;
    let updates = updates_in(alloc, &lines)?;
    if are_ordered(&updates) {
        Ok(updates)
    } else {
        Ok(Vec::new(alloc))
    }
}

/// The refs that the end of the list updates, as `update-refs` has them, in byte order.
pub fn read_updates(alloc: Global, bytes: &[u8]) -> Result<RefUpdates, AllocError>
    ensures { IfOk result (λ updates. Recalls AreUpdates updates_text bytes.now updates) }
{
    let updates = updates_of(alloc, bytes)?;
    Ok(RefUpdates::from_vec(updates))
}
