//! A commit that is to be made, children that are to run for it, and what is left.

ghost use Rattle.std.specs.Prelude.{◌≡◌, IfOk};
ghost use Rattle.std.specs.List.{AllByRecursion};
ghost use Rattle.commit_maker.specs.Commits.{CanBeMade, IsAuthor};
ghost use Rattle.ident_text.specs.Idents.{IsIdentValue};
ghost use Rattle.seq_base.specs.StorePaths.{IsStorePath};
ghost use Rattle.seq_memory.specs.Children.{WriteStorePaths};
ghost use Rattle.seq_outside.specs.Env.{IsZone};

use commit_maker::{Made, MakeStop, Making, Source, has_identity, make};
use config_text::parse_config;
use ident_text::Ident;
use object_text::Ids;
use seq_base::{Bytes, Id};
use seq_memory::{Answer, ListClock, QuietStore, ScriptSpawner, Writes};
use seq_outside::{Env, Exit, Halt, Job, Store, Variables};
use std::alloc::{AllocError, Global};
use std::test::Fail;

pub const TREE: [u8; 20] = [
    0x3b, 0x8a, 0x26, 0x01, 0xbe, 0x34, 0xf4, 0xd2, 0x62, 0x25, 0x9f, 0xa2, 0xc7, 0x4e, 0xc8, 0xb6,
    0x2f, 0x35, 0xa4, 0x55,
];

pub const PARENT: [u8; 20] = [
    0x12, 0x64, 0xed, 0x59, 0x15, 0x5f, 0x9d, 0x0e, 0xa1, 0xfc, 0xb7, 0x66, 0x6b, 0xaf, 0xf8, 0xc8,
    0x1c, 0x71, 0x1f, 0x9a,
];

/// A commit that is to be made of a tree and a parent, by Ann or by who commits.
#[derive(Drop)]
pub struct Row {
    pub message: &'static [u8],
    pub by_ann: bool,
    pub chain: bool,
    pub edit: bool,
    pub source: Source,
    pub editor: &'static [u8],
    pub hooks: bool,
}

/// What a child leaves of the message, if it writes it, and how it ends.
#[derive(Clone, Copy)]
pub enum Does {
    Nothing,
    Writes(&'static [u8]),
    Removes,
    Exits(u8),
    Fails,
}

/// What was made, and what stands then.
#[derive(Drop)]
pub struct Attempt {
    pub made: Result<Made, Halt<MakeStop>>,
    pub unseen: bool,
    pub store: QuietStore,
    pub spawner: ScriptSpawner,
}

pub fn bytes(alloc: Global, text: &[u8]) -> Result<Bytes, AllocError>
    ensures { IfOk result (λ b. b ≡ text.now) }
{
    Ok(Bytes::from_vec(Vec::from_slice(alloc, text)?))
}

fn ann(alloc: Global) -> Result<Ident, AllocError>
    ensures { IfOk result IsIdentValue }
{
    Ok(Ident {
        name: bytes(alloc, b"Ann")?,
        email: bytes(alloc, b"ann@x")?,
        secs: 1000,
        zone: *b"+0000",
    })
}

fn author(alloc: Global, by_ann: bool) -> Result<Option<Ident>, AllocError>
    ensures { IfOk result IsAuthor }
{
    if by_ann {
        return Ok(Some(ann(alloc)?));
    }
    Ok(None)
}

fn making(alloc: Global, row: &Row) -> Result<Making, AllocError>
    ensures { IfOk result CanBeMade }
{
    Ok(Making {
        tree: Id::from_bytes(TREE),
        parents: Ids::from_vec(vec![in alloc; Id::from_bytes(PARENT)]?),
        author: author(alloc, row.by_ann)?,
        encoding: None,
        message: bytes(alloc, row.message)?,
        chain: row.chain,
        edit: row.edit,
        source: row.source,
    })
}

fn env(alloc: Global) -> Result<Env, AllocError>
    ensures { IfOk result (λ env. IsZone env.zone) }
{
    let name = (bytes(alloc, b"GIT_COMMITTER_NAME")?, bytes(alloc, b"Sam")?);
    let email = (
        bytes(alloc, b"GIT_COMMITTER_EMAIL")?,
        bytes(alloc, b"sam@x")?,
    );
    Ok(Env {
        vars: Variables::from_vec(vec![in alloc; name, email]?),
        zone: *b"+0000",
    })
}

/// A configuration with an editor, or without any.
fn config_bytes(alloc: Global, editor: &[u8]) -> Result<Vec<u8>, AllocError> {
    let mut text = b"[core]\n".to_vec(alloc)?;
    if !editor.is_empty() {
        text.extend_from_slice(b"\teditor = ")?;
        text.extend_from_slice(editor)?;
        text.push(b'\n')?;
    }
    Ok(text)
}

/// The message's file is written, or removed.
fn message_written(alloc: Global, text: Option<Bytes>) -> Result<Writes, AllocError>
    ensures { IfOk result (λ writes. AllByRecursion (λ change. IsStorePath change.0) writes) }
{
    let path = bytes(alloc, b".git/COMMIT_EDITMSG")?;
    let writes = vec![in alloc; (path, text)]?;
    Ok(Writes::from_vec(writes))
}

fn writes(alloc: Global, does: Does) -> Result<Writes, AllocError>
    ensures { IfOk result (λ writes. AllByRecursion (λ change. IsStorePath change.0) writes) }
{
    match does {
        Does::Writes(text) => {
            let text = bytes(alloc, text)?;
            message_written(alloc, Some(text))
        }
        Does::Removes => message_written(alloc, None),
        Does::Nothing | Does::Exits(_) | Does::Fails => Ok(Writes::from_vec(Vec::new(alloc))),
    }
}

fn answer(alloc: Global, does: Does) -> Result<Answer, AllocError>
    ensures { IfOk result (λ answer. AllByRecursion (λ change. IsStorePath change.0) answer.writes) }
{
    let exit = match does {
        Does::Exits(code) => Exit::Code(code),
        _ => Exit::Code(0),
    };
    Ok(Answer {
        exit,
        writes: writes(alloc, does)?,
        fails: matches!(does, Does::Fails),
    })
}

fn answers(alloc: Global, children: [Does; 4]) -> Result<Vec<Answer>, AllocError>
    ensures { IfOk result (λ answers. WriteStorePaths answers.items) }
{
    let [first, second, third, fourth] = children;
    let first = answer(alloc, first)?;
    let second = answer(alloc, second)?;
    let third = answer(alloc, third)?;
    let fourth = answer(alloc, fourth)?;
    Ok(vec![in alloc; first, second, third, fourth]?)
}

fn put_hooks(alloc: Global, store: &mut QuietStore) -> Result<(), Fail> {
    store.put(alloc, b".git/hooks/pre-commit", b"#!/bin/sh\n")?;
    store.put(alloc, b".git/hooks/prepare-commit-msg", b"#!/bin/sh\n")?;
    store.put(alloc, b".git/hooks/commit-msg", b"#!/bin/sh\n")?;
    store.put(alloc, b".git/hooks/post-commit", b"#!/bin/sh\n")?;
    Ok(())
}

/// Makes the commit at the moment 2000, with children that do so one after another.
pub fn run(alloc: Global, row: &Row, children: [Does; 4]) -> Result<Attempt, Fail> {
    let mut store = QuietStore::new(alloc, &[])?;
    if row.hooks {
        put_hooks(alloc, &mut store)?;
    }
    let mut spawner = ScriptSpawner::new(answers(alloc, children)?);
    let mut clock = ListClock::new(vec![in alloc; 2000, 3000]?);
    let making = making(alloc, row)?;
    let config = parse_config(alloc, &config_bytes(alloc, row.editor)?)?;
    let env = env(alloc)?;
    if !has_identity(alloc, &config, &env)? {
        let none: Option<Attempt> = None;
        return Ok(none.ok_or("no identity")?);
    }
    let mut unseen = false;
    let made = make(
        alloc,
        &making,
        &config,
        &env,
        &mut unseen,
        &mut store,
        &mut spawner,
        &mut clock,
    );
    Ok(Attempt {
        made,
        unseen,
        store,
        spawner,
    })
}

fn is_id(made: &Made, hex: &[u8]) -> bool {
    match Id::from_hex(hex) {
        Ok(id) => made.id == id,
        Err(_) => false,
    }
}

impl Attempt {
    /// This commit was made, by Sam at the moment, with that subject.
    pub fn is_made(&self, hex: &[u8], subject: &[u8]) -> bool {
        match &self.made {
            Ok(made) => {
                is_id(made, hex)
                    && made.ident.as_slice() == b"Sam <sam@x> 2000 +0000".as_slice()
                    && made.subject.as_slice() == subject
            }
            Err(_) => false,
        }
    }

    /// It stopped at this hook.
    pub fn is_refused(&self, hook: &[u8], wanted: Exit, could_not_run: bool) -> bool {
        match &self.made {
            Err(Halt::Stops(MakeStop::HookRefused { name, exit, failed })) => {
                name.as_slice() == hook && *exit == wanted && *failed == could_not_run
            }
            _ => false,
        }
    }

    /// It stopped at the editor.
    pub fn is_unedited(&self, wanted: Exit, could_not_run: bool) -> bool {
        match &self.made {
            Err(Halt::Stops(MakeStop::EditorFailed { exit, failed })) => {
                *exit == wanted && *failed == could_not_run
            }
            _ => false,
        }
    }

    pub fn is_empty(&self) -> bool {
        matches!(&self.made, Err(Halt::Stops(MakeStop::EmptyMessage)))
    }

    /// The message's file has this text, and nothing but hooks stands beside it: no object, and no ref.
    pub fn holds_alone(&self, message: &[u8]) -> bool {
        self.store.content().iter().all(|file| {
            file.0.as_slice().starts_with(b".git/hooks/")
                || (file.0.as_slice() == b".git/COMMIT_EDITMSG".as_slice()
                    && file.1.as_slice() == message)
        })
    }

    /// Beside hooks and the message's file only one object stands.
    pub fn holds_one_object(&self) -> bool {
        let objects = self
            .store
            .content()
            .iter()
            .filter(|file| file.0.as_slice().starts_with(b".git/objects/"))
            .count();
        let others = self
            .store
            .content()
            .iter()
            .filter(|file| {
                !file.0.as_slice().starts_with(b".git/objects/")
                    && !file.0.as_slice().starts_with(b".git/hooks/")
            })
            .count();
        objects == 1 && others == 1
    }

    /// So many jobs were handed in.
    pub fn ran(&self, count: usize) -> bool {
        self.spawner.jobs().len() == count
    }

    /// The job of that number, from 0, has these words and no input.
    pub fn asked(&self, number: usize, words: &[&[u8]]) -> bool {
        match self.spawner.jobs().get(number) {
            Some(job) => is_job(job, words),
            None => false,
        }
    }
}

fn is_job(job: &Job, words: &[&[u8]]) -> bool {
    job.input.as_slice().is_empty()
        && job.words.as_slice().len() == words.len()
        && job
            .words
            .as_slice()
            .iter()
            .zip(words)
            .all(|(word, wanted)| word.as_slice() == *wanted)
}
