//! Where an entry may stand.

ghost use Rattle.std.specs.Prelude.{◌≡◌, ◌+◌, ◌-◌, ◌++◌, ◌==◌, ◌∷◌, [], IfOk, OnOk, length, take, take_while, replicate, true, false};
ghost use Rattle.std.specs.List.{zip};
ghost use Rattle.index_file.specs.Entries.{comes_before};
ghost use Rattle.index_file.specs.Fronts.{HoldsFronts, allows, common, is_below_front, last_of, may_follow, path_of};
ghost use Rattle.index_file.specs.Reading.{Gives, appended};

use crate::entry::IndexEntry;
use crate::fault::IndexFault;
use std::alloc::AllocError;
use std::cmp::Ordering;

#[tactic(auto, using(crate::proofs::Sorted::before_is))]
fn is_after(last: &IndexEntry, entry: &IndexEntry) -> bool
    ensures { result ≡ comes_before last.now entry.now }
{
    match last.path.bytes().cmp(entry.path.bytes()) {
        Ordering::Less => true,
        Ordering::Equal => 0 < last.stage && last.stage < entry.stage,
        Ordering::Greater => false,
    }
}

/// Whether the entry comes after the last one, if there is one.
fn is_after_all(entries: &[IndexEntry], entry: &IndexEntry) -> bool
    ensures { result ≡ allows (last_of entries.now) entry.now }
{
    match entries.last() {
        None => true,
        Some(last) => is_after(last, entry),
    }
}

/// The path of the last entry, empty where there is none.
fn last_path(entries: &[IndexEntry]) -> &[u8]
    ensures { result.now ≡ path_of (last_of entries.now) }
{
    match entries.last() {
        None => &[],
        Some(last) => last.path.bytes(),
    }
}

/// How many bytes both begin with.
fn common_len(a: &[u8], b: &[u8]) -> usize
    ensures { result ≡ length (take_while (λ p. p.0 == p.1) (zip a.now b.now)) }
{
    a.iter().zip(b).take_while(|(x, y)| x == y).count()
}

/// Makes what is known of the fronts of a path into what is known of those of the next.
#[tactic(auto, using(crate::proofs::FrontLaws::common_le, crate::proofs::FrontLaws::common_is))]
fn move_to(files: &mut Vec<bool>, last: &[u8], path: &[u8]) -> Result<(), AllocError>
    requires { length files.old.items ≡ length last.now + 1 }
    ensures marks { OnOk result (files.new.items
        ≡ take (common last.now path.now + 1) files.old.items ++ replicate (length path.now - common last.now path.now) false) }
    ensures len { OnOk result (length files.new.items ≡ length path.now + 1) }
{
    files.truncate(common_len(last, path) + 1);
    files.resize(path.len() + 1, false)
}

/// Whether some front of the path that is a file has a slash behind it.
fn is_below(files: &[bool], path: &[u8]) -> bool
    ensures { result ≡ is_below_front files.now path.now }
{
    path.iter()
        .zip(files)
        .any(|(b, is_file)| *b == b'/' && *is_file)
}

/// Whether the entry may stand behind the others, with what is then known of the fronts of its path.
fn place(
    entries: &[IndexEntry],
    files: &mut Vec<bool>,
    entry: &IndexEntry,
) -> Result<bool, AllocError>
    requires { HoldsFronts entries.now files.old.items }
    ensures placed { IfOk result (λ placed. placed ≡ may_follow entries.now entry.now) }
    ensures holds { IfOk result (λ placed. placed ≡ true → HoldsFronts (entries.now ++ entry.now ∷ []) files.new.items) }
{
    if !is_after_all(entries, entry) {
        return Ok(false);
    }
    let path = entry.path.bytes();
    move_to(files, last_path(entries), path)?;
    if entry.stage != 0 {
        return Ok(true);
    }
    let is_free = !is_below(files, path);
    files[path.len()] = true;
    Ok(is_free)
}

/// Puts an entry behind the others, if it may stand there.
#[tactic(auto, unfolding(crate::specs::Reading::appended))]
pub fn append(
    entries: &mut Vec<IndexEntry>,
    files: &mut Vec<bool>,
    entry: IndexEntry,
) -> Result<(), IndexFault>
    requires { HoldsFronts entries.old.items files.old.items }
    ensures holds { OnOk result (HoldsFronts entries.new.items files.new.items) }
    ensures gives { Gives (λ _. entries.new.items) result (appended entries.old.items entry) }
{
    if !place(entries, files, &entry)? {
        return Err(IndexFault::Order {
            n: entries.len() as u64 + 1,
        });
    }
    entries.push(entry)?;
    Ok(())
}
