//! The rule files of a path.

ghost use Rattle.std.specs.Prelude.{◌≡◌, IfOk};
ghost use Rattle.seq_base.specs.PathMaps.{entry_at};
ghost use Rattle.seq_outside.specs.Halts.{Gives, halt_cause};
ghost use Rattle.seq_outside.specs.Seen.{Reads};
ghost use Rattle.content_merge.specs.RuleFiles.{file_blob, folders_of as folders_of_path, own_rules_read, rule_files, rules_in, rules_path as rules_path_of, with_blob, with_folders};

use attr_rules::{Rules, parse_rules};
use seq_base::{Bytes, Entry, Id, Mode, Path, PathMap};
use seq_outside::{Halt, Lack, Store};
use std::alloc::{AllocError, Global};
use worktree::read_blob;

/// The folders that a path lies in, the nearest first; the root is empty.
#[tactic(auto, using(crate::proofs::Folders::folders_before, crate::proofs::Folders::folders_none))]
fn folders_of(alloc: Global, path: &[u8]) -> Result<Vec<Bytes>, AllocError>
    ensures { IfOk result (λ folders. folders.items ≡ folders_of_path path.now) }
{
    let mut folders = Vec::new(alloc);
    let mut end = path.len();
    while end > 0 {
        end -= 1;
        if path[end] == b'/' {
            folders.push(Bytes::from_vec(path[..end].to_vec(alloc)?))?;
        }
    }
    folders.push(Bytes::from_vec(Vec::new(alloc)))?;
    Ok(folders)
}

fn rules_path(alloc: Global, folder: &[u8]) -> Result<Vec<u8>, AllocError>
    ensures { IfOk result (λ path. path.items ≡ rules_path_of folder.now) }
{
    let mut path = Vec::new(alloc);
    if folder.is_empty() {
        path.extend_from_slice(b".gitattributes")?;
        return Ok(path);
    }
    path.extend_from_slice(folder)?;
    path.extend_from_slice(b"/.gitattributes")?;
    Ok(path)
}

/// What a map has at a path, which may be none that a map can have.
fn entry_with(map: &PathMap, path: &[u8]) -> Option<Entry>
    ensures { result ≡ entry_at map.now path.now }
{
    let mut rest = map.entries();
    while let [first, after @ ..] = rest {
        if first.0.bytes() == path {
            return Some(first.1);
        }
        rest = after;
    }
    None
}

/// The blob of an entry that is a file.
fn blob_of(entry: Option<Entry>) -> Option<Id>
    ensures { result ≡ file_blob entry }
{
    let Some(entry) = entry else {
        return None;
    };
    match entry.mode {
        Mode::File => Some(entry.id),
        Mode::Exec => Some(entry.id),
        Mode::Link => None,
        Mode::Gitlink => None,
        Mode::Folder => None,
    }
}

fn rules_of(alloc: Global, text: &[u8], folder: &[u8]) -> Result<Rules, AllocError>
    ensures { IfOk result (λ rules. rules ≡ rules_in folder.now text.now) }
{
    parse_rules(alloc, text, folder)
}

/// Adds the rule file of a folder that is this blob, if there is one.
#[tactic(auto, unfolding(crate::specs::RuleFiles::with_blob))]
fn push_rules<S: Store>(
    alloc: Global,
    store: &mut S,
    folder: &[u8],
    blob: Option<Id>,
    files: &mut Vec<Rules>,
) -> Result<(), Halt<Lack>>
    ensures gives { S.told → Gives (λ _. files.new.items) result (with_blob (S.seen store.old).content files.old.items folder.now blob) }
    ensures reads { Reads S.told halt_cause result (S.seen store.old) (S.seen store.new) }
{
    let Some(id) = blob else {
        return Ok(());
    };
    let text = read_blob(alloc, store, id)?;
    files.push(rules_of(alloc, text.as_slice(), folder)?)?;
    Ok(())
}

/// Adds the rule file that a map has in a folder.
fn push_folder<S: Store>(
    alloc: Global,
    store: &mut S,
    head: &PathMap,
    folder: &[u8],
    files: &mut Vec<Rules>,
) -> Result<(), Halt<Lack>>
    ensures gives { S.told → Gives (λ _. files.new.items) result
        (with_blob (S.seen store.old).content files.old.items folder.now (file_blob (entry_at head.now (rules_path_of folder.now)))) }
    ensures reads { Reads S.told halt_cause result (S.seen store.old) (S.seen store.new) }
{
    let path = rules_path(alloc, folder)?;
    let blob = blob_of(entry_with(head, &path));
    push_rules(alloc, store, folder, blob, files)
}

/// The file of the repository itself, if it is there.
fn own_rules_of<S: Store>(alloc: Global, store: &mut S) -> Result<Vec<Rules>, Halt<Lack>>
    ensures gives { S.told → Gives (λ files. files.items) result (own_rules_read (S.seen store.old).content) }
    ensures reads { Reads S.told halt_cause result (S.seen store.old) (S.seen store.new) }
{
    let mut files = Vec::new(alloc);
    if let Some(text) = store.get(alloc, b".git/info/attributes")? {
        files.push(rules_of(alloc, &text, b"")?)?;
    }
    Ok(files)
}

/// Adds the rule files that a map has in these folders.
#[tactic(auto, unfolding(crate::specs::RuleFiles::with_folders))]
fn push_folders<S: Store>(
    alloc: Global,
    store: &mut S,
    head: &PathMap,
    folders: &[Bytes],
    files: &mut Vec<Rules>,
) -> Result<(), Halt<Lack>>
    ensures gives { S.told → Gives (λ _. files.new.items) result (with_folders (S.seen store.old).content head.now files.old.items folders.now) }
    ensures reads { Reads S.told halt_cause result (S.seen store.old) (S.seen store.new) }
{
    let mut rest = folders;
    while let [folder, after @ ..] = rest {
        push_folder(alloc, store, head, folder.as_slice(), files)?;
        rest = after;
    }
    Ok(())
}

/// The rule files of a path, the strongest first (gitattributes(5), "DESCRIPTION"): `.git/info/attributes`, then the file
/// `.gitattributes` of the path's folder and of each folder above, which are those of the map `head`, where an entry that is no
/// regular file counts as missing. Object where a blob is missing, damaged or of another kind, Limit where it is too large, of the
/// first such file.
pub fn read_rule_files<S: Store>(
    alloc: Global,
    store: &mut S,
    head: &PathMap,
    path: &Path,
) -> Result<Vec<Rules>, Halt<Lack>>
    ensures gives { S.told → Gives (λ files. files.items) result (rule_files (S.seen store.old).content head.now path.now) }
    ensures reads { Reads S.told halt_cause result (S.seen store.old) (S.seen store.new) }
{
    let folders = folders_of(alloc, path.bytes())?;
    let mut files = own_rules_of(alloc, store)?;
    push_folders(alloc, store, head, &folders, &mut files)?;
    Ok(files)
}
