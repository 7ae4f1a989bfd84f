//! Makes a commit in the repository below whose root it runs: its words are the tree, the parent, the author's ident and the message, and
//! `edit` where the message is edited. It prints the commit's id, or why none was made. It is no part of the product: tests ask it what
//! `commit_maker::make` does.
#![tactic(auto)]

ghost use Rattle.std.specs.Prelude.{IfSome};
ghost use Rattle.commit_maker.specs.Commits.{CanBeMade};
ghost use Rattle.ident_text.specs.Idents.{IsIdentValue};

use commit_maker::{Made, MakeStop, Making, Source, has_identity, make};
use config_text::{Config, parse_config};
use ident_text::{Ident, parse_ident};
use object_text::Ids;
use seq_base::{Bytes, Id};
use seq_disk::{DiskStore, ShellSpawner, StdoutSink, WallClock};
use seq_outside::{Halt, Sink, Store};
use std::alloc::{AllocError, Global};
use std::process::ExitCode;

fn ident_of(alloc: Global, text: &[u8]) -> Option<Ident>
    ensures { IfSome result IsIdentValue }
{
    match parse_ident(alloc, text) {
        Ok(ident) => Some(ident),
        Err(_) => None,
    }
}

fn id_of(text: &[u8]) -> Option<Id> {
    match Id::from_hex(text) {
        Ok(id) => Some(id),
        Err(_) => None,
    }
}

fn parents_of(alloc: Global, parent: Id) -> Result<Ids, AllocError> {
    Ok(Ids::from_vec(vec![in alloc; parent]?))
}

/// The commit that the words tell.
fn making_of(alloc: Global, words: &[Bytes]) -> Option<Making>
    ensures { IfSome result CanBeMade }
{
    let [tree, parent, author, message, edit @ ..] = words else {
        return None;
    };
    let tree = id_of(tree.as_slice())?;
    let parent = id_of(parent.as_slice())?;
    let author = ident_of(alloc, author.as_slice())?;
    let parents = parents_of(alloc, parent).ok()?;
    let message = message.clone().ok()?;
    Some(Making {
        tree,
        parents,
        author: Some(author),
        encoding: None,
        message,
        chain: false,
        edit: !edit.is_empty(),
        source: Source::Message,
    })
}

fn config_of<S: Store>(alloc: Global, store: &mut S) -> Option<Config> {
    match store.get(alloc, b".git/config") {
        Ok(Some(text)) => parse_config(alloc, &text).ok(),
        Ok(None) => None,
        Err(_) => None,
    }
}

/// The line that tells what was made.
fn line_of(alloc: Global, made: &Result<Made, Halt<MakeStop>>) -> Result<Vec<u8>, AllocError> {
    let mut line = Vec::new(alloc);
    match made {
        Ok(made) => line.extend_from_slice(&made.id.hex(alloc)?)?,
        Err(Halt::Stops(MakeStop::HookRefused { name, .. })) => {
            line.extend_from_slice(b"refused ")?;
            line.extend_from_slice(name.as_slice())?;
        }
        Err(Halt::Stops(MakeStop::EditorFailed { .. })) => { line.extend_from_slice(b"unedited")? }
        Err(Halt::Stops(MakeStop::EmptyMessage)) => line.extend_from_slice(b"empty")?,
        Err(Halt::Stops(MakeStop::Lacks(_))) => line.extend_from_slice(b"lacks")?,
        Err(Halt::Fault) => line.extend_from_slice(b"fault")?,
        Err(Halt::Memory) => return Err(AllocError),
    }
    line.push(b'\n')?;
    Ok(line)
}

fn told(rt: &HostRuntime) -> Option<Vec<u8>> {
    let alloc = rt.alloc();
    let words = seq_disk::words(alloc, rt).ok()?;
    let env = seq_disk::environment(alloc, rt).ok()?;
    let making = making_of(alloc, &words)?;
    let mut store = DiskStore::new(rt);
    let config = config_of(alloc, &mut store)?;
    if !has_identity(alloc, &config, &env).ok()? {
        return None;
    }
    let mut unseen = false;
    let mut spawner = ShellSpawner::new(rt);
    let mut clock = WallClock::new(rt);
    let made = make(
        alloc,
        &making,
        &config,
        &env,
        &mut unseen,
        &mut store,
        &mut spawner,
        &mut clock,
    );
    line_of(alloc, &made).ok()
}

fn is_printed(rt: &HostRuntime) -> bool {
    match told(rt) {
        Some(line) => StdoutSink::new(rt.stdout()).write(&line).is_ok(),
        None => false,
    }
}

fn main(rt: HostRuntime) -> ExitCode {
    if is_printed(&rt) {
        ExitCode::SUCCESS
    } else {
        ExitCode::FAILURE
    }
}
