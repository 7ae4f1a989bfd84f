//! Who commits.

ghost use Rattle.std.specs.Prelude.{◌≡◌, IfOk, IsErrOf, true};
ghost use Rattle.std.specs.Option.{option_map};
ghost use Rattle.std.specs.List.{list_all};
ghost use Rattle.ident_text.specs.Idents.{is_ident_byte as may_name};
ghost use Rattle.seq_model.specs.Committers.{committer_in, identity_in, is_identity as is_identity_of, said_by as said_by_those};
ghost use Rattle.seq_outside.specs.Halts.{Gives};

use child_jobs::variable;
use config_text::Config;
use ident_text::is_ident_byte;
use seq_base::Bytes;
use seq_model::{Committer, Denial, Refusal, refused};
use seq_outside::Halt;
use std::alloc::{AllocError, Global};

fn fits_ident(text: &[u8]) -> bool
    ensures { result ≡ list_all may_name text.now }
{
    text.iter().all(|b| is_ident_byte(*b))
}

/// Whether an ident can hold the text, and it is not empty.
fn is_identity(text: &[u8]) -> bool
    ensures { result ≡ is_identity_of text.now }
{
    if text.is_empty() {
        return false;
    }
    fits_ident(text)
}

/// What a variable says, and else a setting of the section `user`.
fn said_by(
    alloc: Global,
    vars: &[(Bytes, Bytes)],
    config: &Config,
    name: &[u8],
    key: &[u8],
) -> Result<Option<Vec<u8>>, AllocError>
    ensures { IfOk result (λ found. option_map (λ v. v.items) found ≡ said_by_those vars.now config.now name.now key.now) }
{
    if let Some(value) = variable(vars, name) {
        return Ok(Some(value.to_vec(alloc)?));
    }
    config.get(b"user", b"", key)
}

/// A name or an email that is said so.
#[tactic(auto, unfolding(seq_model::specs::Committers::identity_in))]
fn identity(
    alloc: Global,
    vars: &[(Bytes, Bytes)],
    config: &Config,
    name: &[u8],
    key: &[u8],
) -> Result<Bytes, Halt<Denial>>
    ensures gives { Gives (λ text. text) result (identity_in vars.now config.now name.now key.now) }
    ensures fits { IfOk result (λ text. list_all may_name text ≡ true) }
    ensures no_fault { IsErrOf result Halt.Fault → ⊥ }
{
    let Some(text) = said_by(alloc, vars, config, name, key)? else {
        return Err(refused(Refusal::NoIdentity));
    };
    if !is_identity(&text) {
        return Err(refused(Refusal::NoIdentity));
    }
    Ok(Bytes::from_vec(text))
}

/// Who commits: by the variables GIT_COMMITTER_NAME and GIT_COMMITTER_EMAIL, and where one is not there by `user.name` or `user.email` of
/// the configuration (git-commit-tree(1), "Commit Information"). NoIdentity where one is missing or empty, or no ident can hold it.
#[tactic(auto, unfolding(seq_model::specs::Committers::committer_in))]
pub fn committer(
    alloc: Global,
    vars: &[(Bytes, Bytes)],
    config: &Config,
) -> Result<Committer, Halt<Denial>>
    ensures gives { Gives (λ committer. committer) result (committer_in vars.now config.now) }
    ensures name { IfOk result (λ committer. list_all may_name committer.name ≡ true) }
    ensures email { IfOk result (λ committer. list_all may_name committer.email ≡ true) }
    ensures no_fault { IsErrOf result Halt.Fault → ⊥ }
{
    let name = identity(alloc, vars, config, b"GIT_COMMITTER_NAME", b"name")?;
    let email = identity(alloc, vars, config, b"GIT_COMMITTER_EMAIL", b"email")?;
    Ok(Committer { name, email })
}
