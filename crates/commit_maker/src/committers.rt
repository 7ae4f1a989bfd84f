//! Who commits.

ghost use Rattle.std.specs.List.{list_all};
ghost use Rattle.std.specs.Prelude.{◌≡◌, [], IfOk, true, unwrap_or};
ghost use Rattle.commit_maker.specs.Committers.{CanCommit, committer_at, has_identity as has_identity_by, is_identity as is_identity_text, set_by};
ghost use Rattle.ident_text.specs.Idents.{IsIdentValue, is_ident_byte as may_name};
ghost use Rattle.seq_outside.specs.Env.{IsZone};

use crate::bytes::copy_of;
use child_jobs::variable;
use config_text::Config;
use ident_text::{Ident, is_ident_byte};
use seq_base::Bytes;
use seq_outside::Env;
use std::alloc::{AllocError, Global};

/// What a variable has, or else a key of the section `user`; the empty text, where neither is set.
fn set_text(
    alloc: Global,
    config: &Config,
    env: &Env,
    name: &[u8],
    key: &[u8],
) -> Result<Bytes, AllocError>
    ensures { IfOk result (λ text. text ≡ unwrap_or (set_by config.now env.now.vars name.now key.now) []) }
{
    if let Some(value) = variable(env.vars.as_slice(), name) {
        return copy_of(alloc, value);
    }
    match config.get(b"user", b"", key)? {
        Some(value) => Ok(Bytes::from_vec(value)),
        None => Ok(Bytes::from_vec(Vec::new(alloc))),
    }
}

/// Who commits at a moment.
#[tactic(auto, using(crate::proofs::Committing::zone_fits))]
pub fn committer(alloc: Global, config: &Config, env: &Env, secs: i64) -> Result<Ident, AllocError>
    requires { CanCommit config.now env.now }
    ensures ident { IfOk result (λ who. who ≡ committer_at config.now env.now secs) }
    ensures value { IfOk result IsIdentValue }
{
    let name = set_text(alloc, config, env, b"GIT_COMMITTER_NAME", b"name")?;
    let email = set_text(alloc, config, env, b"GIT_COMMITTER_EMAIL", b"email")?;
    Ok(Ident {
        name,
        email,
        secs,
        zone: env.zone,
    })
}

fn fits_ident(text: &[u8]) -> bool
    ensures { result ≡ list_all may_name text.now }
{
    text.iter().all(|b| is_ident_byte(*b))
}

/// Whether an ident can hold the text, and it is not empty.
fn is_identity(text: &[u8]) -> bool
    ensures { result ≡ is_identity_text text.now }
{
    if text.is_empty() {
        return false;
    }
    fits_ident(text)
}

/// Whether who commits has a name and an email: GIT_COMMITTER_NAME, else `user.name`, and GIT_COMMITTER_EMAIL, else `user.email`, each not empty
/// and such that an ident can hold it (git-commit(1), "COMMIT INFORMATION"). What is set first decides, an empty text too.
pub fn has_identity(alloc: Global, config: &Config, env: &Env) -> Result<bool, AllocError>
    ensures has { IfOk result (λ has. has ≡ has_identity_by config.now env.now) }
    ensures can { IsZone env.now.zone → IfOk result (λ has. has ≡ true → CanCommit config.now env.now) }
{
    let name = set_text(alloc, config, env, b"GIT_COMMITTER_NAME", b"name")?;
    let email = set_text(alloc, config, env, b"GIT_COMMITTER_EMAIL", b"email")?;
    Ok(is_identity(name.as_slice()) && is_identity(email.as_slice()))
}
