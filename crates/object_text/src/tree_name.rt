//! The mode, the name and the id of an entry of a tree, from the front of bytes.

ghost use Rattle.std.specs.Prelude.{◌≡◌, ℕ, List, ◌∷◌, ◌++◌, [], length, IfOk, reverse, ◌<◌, true, codes, map, Bool};
ghost use Rattle.std.specs.Char.{to_ascii_lowercase};
ghost use Rattle.std.specs.List.{list_all};
ghost use Rattle.std.specs.Str.{bytes_eq};
ghost use Rattle.grammar.specs.Gives.{Gives};
ghost use Rattle.grammar.specs.Keywords.{may_of};
ghost use Rattle.grammar.specs.Readers.{front_at};
ghost use Rattle.seq_base.specs.Paths.{is_special};
ghost use Rattle.seq_base.specs.PathMaps.{is_less};
ghost use Rattle.object_text.specs.Trees.{key, is_name_byte, is_name as may_be_name};
ghost use Rattle.object_text.specs.ReadTrees.{modes, may_name, HasSeen, last_key, is_new, may_follow as follows, IsTreeSoFar, mode_from, name_from, entry_from};

use crate::tree::TreeEntry;
use grammar::{ReadError, Scan, span_of};
use seq_base::{Bytes, Id, Mode, comes_before};
use std::alloc::{AllocError, Global};

/// Whether a mode's text begins so.
fn is_mode_front(front: &[u8]) -> bool
    ensures { result ≡ may_of modes front.now }
{
    b"100644".starts_with(front)
        || b"100755".starts_with(front)
        || b"120000".starts_with(front)
        || b"160000".starts_with(front)
        || b"40000".starts_with(front)
}

#[derive(Drop)]
struct ModeScan;

impl Scan for ModeScan {
    ghost may = { λ _ front. may_of modes front };

    ghost has_seen = { λ _ _. Unit {0} };

    fn goes_on(&mut self, front: &[u8]) -> bool {
        is_mode_front(front)
    }
}

#[tactic(auto, unfolding(crate::specs::ReadTrees::mode_from), using(crate::proofs::Modes::mode_read))]
fn mode_of(bytes: &[u8]) -> Result<(Mode, &[u8]), ReadError>
    ensures { Gives (λ x. (x.0, x.1.now)) result (mode_from bytes.now) }
{
    let mut scan = ModeScan;
    let (word, rest) = span_of(&mut scan, b' ', bytes)?;
    match Mode::read(word) {
        Some(mode) => Ok((mode, rest)),
        None => Err(ReadError::Stopped {
            left: rest.len() + 1,
        }),
    }
}

fn is_dot_git(name: &[u8]) -> bool
    ensures { result ≡ bytes_eq (codes ".git") (map to_ascii_lowercase name.now) }
{
    name.eq_ignore_ascii_case(b".git")
}

fn is_special_name(name: &[u8]) -> bool
    ensures { result ≡ is_special name.now }
{
    name == b".".as_slice() || name == b"..".as_slice() || is_dot_git(name)
}

fn has_name_bytes(name: &[u8]) -> bool
    ensures { result ≡ list_all is_name_byte name.now }
{
    name.iter().all(|b| *b != 0 && *b != b'/')
}

fn is_name(name: &[u8]) -> bool
    ensures { result ≡ may_be_name name.now }
{
    !name.is_empty() && has_name_bytes(name) && !is_special_name(name)
}

fn are_same(a: &[u8], b: &[u8]) -> bool
    ensures { result ≡ bytes_eq a.now b.now }
{
    a == b
}

/// A name as it is compared: a folder's as if it ended in `/`.
fn key_of(alloc: Global, mode: Mode, name: &[u8]) -> Result<Vec<u8>, AllocError>
    ensures { IfOk result (λ k. k.items ≡ key mode name.now) }
{
    let mut key = Vec::from_slice(alloc, name)?;
    if mode == Mode::Folder {
        key.push(b'/')?;
    }
    Ok(key)
}

fn last_key_of(alloc: Global, entries: &[TreeEntry]) -> Result<Vec<u8>, AllocError>
    ensures { IfOk result (λ k. k.items ≡ last_key (reverse entries.now)) }
{
    match entries.last() {
        None => Ok(Vec::new(alloc)),
        Some(last) => key_of(alloc, last.mode, last.name.as_slice()),
    }
}

/// Whether no entry has a folder's name. A file of that name would stand among the last ones, all of which begin with it.
fn has_no_file(entries: &[TreeEntry], folder: &[u8]) -> bool
    requires order { IsTreeSoFar (reverse entries.now) }
    requires after { is_less (last_key (reverse entries.now)) (folder.now ++ 47 ∷ []) ≡ true }
    ensures { result ≡ is_new (reverse entries.now) folder.now }
{
    let mut left = entries.len();
    while left > 0 {
        let last = entries[left - 1].name.as_slice();
        if are_same(last, folder) {
            return false;
        }
        if !last.starts_with(folder) {
            return true;
        }
        left -= 1;
    }
    true
}

/// Whether no entry has the name of a further one, which comes after them.
fn is_unused(entries: &[TreeEntry], mode: Mode, name: &[u8]) -> bool
    requires order { IsTreeSoFar (reverse entries.now) }
    requires after { is_less (last_key (reverse entries.now)) (key mode name.now) ≡ true }
    ensures { result ≡ is_new (reverse entries.now) name.now }
{
    match mode {
        Mode::Folder => has_no_file(entries, name),
        Mode::File | Mode::Exec | Mode::Link | Mode::Gitlink => true,
    }
}

/// Whether an entry of this mode and name may stand behind the others.
fn may_follow(
    alloc: Global,
    entries: &[TreeEntry],
    last: &[u8],
    mode: Mode,
    name: &[u8],
) -> Result<bool, AllocError>
    requires order { IsTreeSoFar (reverse entries.now) }
    requires last { last.now ≡ last_key (reverse entries.now) }
    ensures { IfOk result (λ b. b ≡ follows (reverse entries.now) mode name.now) }
{
    let key = key_of(alloc, mode, name)?;
    Ok(is_name(name) && comes_before(last, &key) && is_unused(entries, mode, name))
}

#[derive(Drop)]
struct NameScan<'a> {
    last: &'a [u8],
    /// Whether the name so far is a front of the last key.
    tied: bool,
}

impl Scan for NameScan<'_> {
    ghost may = { λ s front. may_name s.last.now front };

    ghost has_seen = { λ s seen. HasSeen s.last.now s.tied seen };

    fn goes_on(&mut self, front: &[u8]) -> bool {
        let (on, tied) = next_byte(self.last, self.tied, front);
        self.tied = tied;
        on
    }
}

/// Whether a name goes on with the last byte of the front, and whether it is then a front of the last key.
fn next_byte(last: &[u8], tied: bool, front: &[u8]) -> (bool, bool)
    requires { 0 < length front.now }
    ensures { (seen : List ℕ) (b : ℕ) → HasSeen last.now tied seen → front.now ≡ seen ++ b ∷ []
        → (result.0 ≡ may_name last.now front.now) × (result.0 ≡ true → HasSeen last.now result.1 front.now) }
{
    let at = front.len() - 1;
    let byte = front[at];
    if byte == 0 {
        return (false, false);
    }
    if byte == b'/' {
        return (false, false);
    }
    if !tied {
        return (true, false);
    }
    if at >= last.len() {
        return (true, false);
    }
    if byte < last[at] {
        return (false, false);
    }
    (true, last[at] == byte)
}

#[tactic(auto, unfolding(crate::specs::ReadTrees::name_from))]
fn name_of<'a>(
    alloc: Global,
    entries: &[TreeEntry],
    mode: Mode,
    bytes: &'a [u8],
) -> Result<(Vec<u8>, &'a [u8]), ReadError>
    requires { IsTreeSoFar (reverse entries.now) }
    ensures { Gives (λ x. (x.0.items, x.1.now)) result (name_from (reverse entries.now) mode bytes.now) }
{
    let last_key = last_key_of(alloc, entries)?;
    let last = last_key.as_slice();
    let mut scan = NameScan { last, tied: true };
    let (name, rest) = span_of(&mut scan, 0, bytes)?;
    if !may_follow(alloc, entries, last, mode, name)? {
        return Err(ReadError::Stopped {
            left: rest.len() + 1,
        });
    }
    Ok((Vec::from_slice(alloc, name)?, rest))
}

fn id_of(bytes: &[u8]) -> Result<([u8; 20], &[u8]), ReadError>
    ensures { Gives (λ x. (x.0, x.1.now)) result (front_at 20 bytes.now) }
{
    if bytes.len() < 20 {
        return Err(ReadError::Stopped { left: 0 });
    }
    let (front, rest) = bytes.split_at(20);
    let mut id = [0; 20];
    id.copy_from_slice(front);
    Ok((id, rest))
}

/// The entry at the front, which stands behind the others, and the bytes behind it.
#[tactic(auto, unfolding(crate::specs::ReadTrees::entry_from))]
pub fn entry_of<'a>(
    alloc: Global,
    entries: &[TreeEntry],
    bytes: &'a [u8],
) -> Result<(TreeEntry, &'a [u8]), ReadError>
    requires { IsTreeSoFar (reverse entries.now) }
    ensures { Gives (λ x. (x.0, x.1.now)) result (entry_from (reverse entries.now) bytes.now) }
{
    let (mode, rest) = mode_of(bytes)?;
    let (name, rest) = name_of(alloc, entries, mode, rest)?;
    let (id, rest) = id_of(rest)?;
    let entry = TreeEntry {
        mode,
        name: Bytes::from_vec(name),
        id: Id::from_bytes(id),
    };
    Ok((entry, rest))
}
