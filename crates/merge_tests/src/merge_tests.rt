//! Ids by `git hash-object`; stages as `git ls-files -s` prints them where a driver of `git merge` ends so.

ghost use Rattle.std.specs.Prelude.{◌≡◌, ◌∷◌, [], IfOk};
ghost use Rattle.seq_memory.specs.Children.{WriteStorePaths};

use config_text::parse_config;
use content_merge::{Merged, merge};
use seq_base::{Bytes, Entry, Id, Mode, Path, PathMap};
use seq_memory::{Answer, ListClock, QuietStore, ScriptSpawner, Writes, is_content};
use seq_outside::{Exit, Halt, Job, Lack, Store};
use stage_index::ConflictFile;
use std::alloc::{AllocError, Global};
use std::test::Fail;

// The blobs of the lines 1, 2, 3 and 4, and of `f merge=d`.
const ONE: &[u8] = b"d00491fd7e5bb6fa28c517a0bb32b8b506539d4d";

const TWO: &[u8] = b"0cfbf08886fca9a91cb753ec8734c84fcbe52c9f";

const THREE: &[u8] = b"00750edc07d6415dcc07ae0351e9397b0222b7ba";

const FOUR: &[u8] = b"b8626c4cff2849624fb67f87cd0ad72b163671ad";

const RULES: &[u8] = b"c0b4eb6e050c034712688d957365e93ddd6b1d68";

const FILES: [(&[u8], &[u8]); 4] = [
    (
        b".git/objects/d0/0491fd7e5bb6fa28c517a0bb32b8b506539d4d",
        b"blob 2\01\n",
    ),
    (
        b".git/objects/0c/fbf08886fca9a91cb753ec8734c84fcbe52c9f",
        b"blob 2\02\n",
    ),
    (
        b".git/objects/00/750edc07d6415dcc07ae0351e9397b0222b7ba",
        b"blob 2\03\n",
    ),
    (
        b".git/objects/c0/b4eb6e050c034712688d957365e93ddd6b1d68",
        b"blob 10\0f merge=d\n",
    ),
];

fn bytes(alloc: Global, text: &[u8]) -> Result<Bytes, AllocError>
    ensures { IfOk result (λ b. b ≡ text.now) }
{
    Ok(Bytes::from_vec(Vec::from_slice(alloc, text)?))
}

/// A store with these blobs, of which the last so many are missing.
fn store(alloc: Global, missing: usize) -> Result<QuietStore, Fail> {
    let mut files = Vec::new(alloc);
    for row in FILES.iter().take(FILES.len().saturating_sub(missing)) {
        files.push((bytes(alloc, row.0)?, bytes(alloc, row.1)?))?;
    }
    if !is_content(&files) {
        return Err(Fail::from("no content"));
    }
    Ok(QuietStore::new(alloc, &files)?)
}

fn entry(hex: &[u8]) -> Result<Entry, Fail>
    ensures { IfOk result (λ entry. entry.mode ≡ Mode.File) }
{
    let id = Id::from_hex(hex).ok().ok_or("no id")?;
    Ok(Entry {
        mode: Mode::File,
        id,
    })
}

fn file_map(alloc: Global, rows: &[(&[u8], &[u8])]) -> Result<PathMap, Fail> {
    let mut map = PathMap::new(alloc);
    for row in rows {
        map.insert(Path::new(alloc, row.0)?, entry(row.1)?)?;
    }
    Ok(map)
}

/// A child that ends so and leaves the line 4 as its file; none where none is to be run.
fn answers(alloc: Global, exit: Option<Exit>) -> Result<Vec<Answer>, AllocError>
    ensures { IfOk result (λ answers. WriteStorePaths answers.items) }
{
    let mut answers = Vec::new(alloc);
    let Some(exit) = exit else {
        return Ok(answers);
    };
    let path = bytes(alloc, b".git/merge-driver/1.ours")?;
    let mut writes = Vec::new(alloc);
    writes.push((path, Some(bytes(alloc, b"4\n")?)))?;
    answers.push(Answer {
        exit,
        writes: Writes::from_vec(writes),
        fails: false,
    })?;
    Ok(answers)
}

/// Merges `f`, which both sides changed, with a driver for it in HEAD's rules or without rules.
fn merged(
    alloc: Global,
    store: &mut QuietStore,
    spawner: &mut ScriptSpawner,
    ours: &[(&[u8], &[u8])],
) -> Result<Result<Merged, Halt<Lack>>, Fail> {
    let clock = ListClock::new(Vec::new(alloc));
    let Ok(config) = parse_config(alloc, b"[merge \"d\"]\n\tdriver = m %O %A %B %P\n") else {
        return Err(Fail::from("no configuration"));
    };
    let base = file_map(alloc, &[(b"f", ONE)])?;
    let ours = file_map(alloc, ours)?;
    let theirs = file_map(alloc, &[(b"f", THREE)])?;
    Ok(merge(
        alloc, store, spawner, &clock, &config, &base, &ours, &theirs, 1,
    ))
}

const WITH_RULES: [(&[u8], &[u8]); 2] = [(b".gitattributes", RULES), (b"f", TWO)];

fn ends(alloc: Global, exit: Option<Exit>) -> Result<Merged, Fail> {
    let mut store = store(alloc, 0)?;
    let mut spawner = ScriptSpawner::new(answers(alloc, exit)?);
    let ended = merged(alloc, &mut store, &mut spawner, &WITH_RULES)?;
    if store.content().len() != FILES.len() {
        return Err(Fail::from("a file is left"));
    }
    match ended {
        Ok(merged) => Ok(merged),
        Err(_) => Err(Fail::from("no end")),
    }
}

fn has_rows(map: &PathMap, rows: &[(&[u8], &[u8])]) -> Result<bool, Fail> {
    let mut same = map.len() == rows.len();
    for (found, row) in map.entries().iter().zip(rows) {
        same &= found.0.bytes() == row.0 && found.1 == entry(row.1)?;
    }
    Ok(same)
}

#[test]
fn a_clean_end_makes_a_new_blob(rt: HostRuntime) -> Result<(), Fail> {
    let alloc = rt.alloc();
    let Merged::Clean { map, texts } = ends(alloc, Some(Exit::Code(0)))? else {
        return Err(Fail::from("not clean"));
    };
    assert!(rt; has_rows(&map, &[(b".gitattributes", RULES), (b"f", FOUR)])?);
    assert_eq!(rt; texts.as_slice().len(), 1);
    assert!(rt; texts.as_slice()[0].as_slice() == b"4\n".as_slice());
    Ok(())
}

fn is_broken(merged: &Merged, with: Exit, unrun: bool) -> bool {
    match merged {
        Merged::Broken { path, exit, failed } => {
            path.bytes() == b"f".as_slice() && *exit == with && *failed == unrun
        }
        _ => false,
    }
}

#[test]
fn other_ends_are_conflicts_or_broken(rt: HostRuntime) -> Result<(), Fail> {
    let alloc = rt.alloc();
    for code in [1, 127] {
        let Merged::Conflict {
            index,
            files,
            texts,
        } = ends(alloc, Some(Exit::Code(code)))?
        else {
            return Err(Fail::from("no conflict"));
        };
        let stages = [(0, RULES), (1, ONE), (2, TWO), (3, THREE)];
        assert_eq!(rt; index.as_slice().len(), stages.len());
        for (found, stage) in index.as_slice().iter().zip(stages) {
            assert_eq!(rt; found.stage, stage.0);
            assert!(rt; found.id == entry(stage.1)?.id);
        }
        assert_eq!(rt; files.as_slice().len(), 1);
        assert!(rt; is_bytes(&files.as_slice()[0].1, b"4\n"));
        assert_eq!(rt; texts.as_slice().len(), 0);
    }
    let broken = ends(alloc, Some(Exit::Code(128)))?;
    assert!(rt; is_broken(&broken, Exit::Code(128), false));
    let broken = ends(alloc, Some(Exit::Code(130)))?;
    assert!(rt; is_broken(&broken, Exit::Code(130), false));
    let broken = ends(alloc, Some(Exit::Killed))?;
    assert!(rt; is_broken(&broken, Exit::Killed, false));
    let broken = ends(alloc, None)?;
    assert!(rt; is_broken(&broken, Exit::Killed, true));
    Ok(())
}

fn is_blob(file: &ConflictFile, hex: &[u8]) -> Result<bool, Fail> {
    let wanted = entry(hex)?;
    match file {
        ConflictFile::Blob(left) => Ok(*left == wanted),
        ConflictFile::Bytes(_) => Ok(false),
    }
}

fn is_bytes(file: &ConflictFile, wanted: &[u8]) -> bool {
    match file {
        ConflictFile::Blob(_) => false,
        ConflictFile::Bytes(left) => left.as_slice() == wanted,
    }
}

fn is_job(job: &Job, line: &[u8]) -> bool {
    match job.words.as_slice() {
        [_, _, word] => word.as_slice() == line,
        _ => false,
    }
}

// Without a rule no driver is run, and ours is left in the file.
#[test]
fn a_path_without_a_driver_stays_ours(rt: HostRuntime) -> Result<(), Fail> {
    let alloc = rt.alloc();
    let mut store = store(alloc, 0)?;
    let mut spawner = ScriptSpawner::new(answers(alloc, None)?);
    let ended = merged(alloc, &mut store, &mut spawner, &[(b"f", TWO)])?;
    let Ok(Merged::Conflict { files, .. }) = ended else {
        return Err(Fail::from("no conflict"));
    };
    assert_eq!(rt; spawner.jobs().len(), 0);
    let [row, ..] = files.as_slice() else {
        return Err(Fail::from("no file"));
    };
    assert!(rt; is_blob(&row.1, TWO)?);
    Ok(())
}

#[test]
fn a_driver_is_handed_its_files(rt: HostRuntime) -> Result<(), Fail> {
    let alloc = rt.alloc();
    let mut store = store(alloc, 0)?;
    let mut spawner = ScriptSpawner::new(answers(alloc, Some(Exit::Code(0)))?);
    let ended = merged(alloc, &mut store, &mut spawner, &WITH_RULES)?;
    assert!(rt; ended.is_ok());
    assert_eq!(rt; spawner.jobs().len(), 1);
    let line =
        b"m .git/merge-driver/1.base .git/merge-driver/1.ours .git/merge-driver/1.theirs 'f'";
    assert!(rt; is_job(&spawner.jobs()[0], line));
    Ok(())
}

fn lacks(ended: &Result<Merged, Halt<Lack>>, wanted: Id) -> bool {
    match ended {
        Err(Halt::Stops(Lack::Object { id })) => *id == wanted,
        _ => false,
    }
}

// The rules are read before the versions.
#[test]
fn what_cannot_be_read_stops_it(rt: HostRuntime) -> Result<(), Fail> {
    let alloc = rt.alloc();
    let rules = entry(RULES)?.id;
    for missing in [1, 2] {
        let mut store = store(alloc, missing)?;
        let mut spawner = ScriptSpawner::new(answers(alloc, Some(Exit::Code(0)))?);
        let ended = merged(alloc, &mut store, &mut spawner, &WITH_RULES)?;
        assert!(rt; lacks(&ended, rules));
        assert_eq!(rt; spawner.jobs().len(), 0);
    }
    Ok(())
}
