//! What the program is started with: its words and its environment.

ghost use Rattle.std.specs.Prelude.{◌≡◌, IfOk, codes, if◌then◌else◌};
ghost use Rattle.seq_outside.specs.Env.{IsZone, is_zone as is_zone_of};

use seq_base::Bytes;
use seq_outside::{Env, Variables, is_zone};
use std::alloc::{AllocError, Global};
use std::env::FillError;
use std::rt;

// What git(1) and git-var(1) name of what an invocation looks at: who commits, and the editors.
const VARIABLES: [&str; 6] = [
    "GIT_COMMITTER_NAME",
    "GIT_COMMITTER_EMAIL",
    "GIT_SEQUENCE_EDITOR",
    "GIT_EDITOR",
    "VISUAL",
    "EDITOR",
];

const ZONE: &str = "GITSEQ_ZONE";

#[derive(Clone, Copy)]
enum Asked<'a> {
    Argument(usize),
    Variable(&'a str),
}

/// The arguments after the program's name, which need not be text.
pub fn words<E: rt::Env>(alloc: Global, env: &E) -> Result<Vec<Bytes>, AllocError> {
    let mut words = Vec::new(alloc);
    for at in 1..usize::MAX {
        match value_of(alloc, env, Asked::Argument(at))? {
            Some(word) => words.push(word)?,
            None => break,
        }
    }
    Ok(words)
}

/// The variables that an invocation looks at and that are there, and the zone that GITSEQ_ZONE tells, where it is a sign
/// and four digits, else `+0000`.
pub fn environment<E: rt::Env>(alloc: Global, env: &E) -> Result<Env, AllocError>
    ensures { IfOk result (λ env. IsZone env.zone) }
{
    let mut variables = Vec::new(alloc);
    for name in VARIABLES {
        if let Some(value) = value_of(alloc, env, Asked::Variable(name))? {
            let name = Bytes::from_vec(name.as_bytes().to_vec(alloc)?);
            variables.push((name, value))?;
        }
    }
    let zone = match value_of(alloc, env, Asked::Variable(ZONE))? {
        Some(text) => zone_of(text.as_slice()),
        None => UTC,
    };
    Ok(Env {
        vars: Variables::from_vec(variables),
        zone,
    })
}

const UTC: [u8; 5] = *b"+0000";

fn zone_of(text: &[u8]) -> [u8; 5]
    ensures zone { IsZone result }
    ensures told { result ≡ (if is_zone_of text.now then text.now else codes "+0000") }
{
    let [sign, a, b, c, d] = text else {
        return UTC;
    };
    if is_zone(text) {
        [*sign, *a, *b, *c, *d]
    } else {
        UTC
    }
}

// Doubles the room until the value fits.
fn value_of<E: rt::Env>(
    alloc: Global,
    env: &E,
    asked: Asked<'_>,
) -> Result<Option<Bytes>, AllocError> {
    for doublings in 8..usize::BITS {
        let mut bytes = vec![in alloc; 0u8; 1usize << doublings]?;
        match fill(env, asked, bytes.as_mut_slice()) {
            Ok(length) => {
                bytes.truncate(length);
                return Ok(Some(Bytes::from_vec(bytes)));
            }
            Err(FillError::NotPresent) => return Ok(None),
            Err(FillError::TooLong) => {}
        }
    }
    Err(AllocError)
}

fn fill<E: rt::Env>(env: &E, asked: Asked<'_>, room: &mut [u8]) -> Result<usize, FillError> {
    match asked {
        Asked::Argument(at) => env.arg(at, room),
        Asked::Variable(name) => env.var(name, room),
    }
}
