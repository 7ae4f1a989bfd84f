//! What each invocation looks at before all else.

ghost use Rattle.std.specs.Prelude.{◌≡◌, IfOk, true};
ghost use Rattle.std.specs.List.{list_all};
ghost use Rattle.index_file.specs.Entries.{IsIndex};
ghost use Rattle.reading.specs.Opening.{opened_at, opened_on};
ghost use Rattle.reading.specs.Settings.{setting_at};
ghost use Rattle.seq_start.specs.Checks.{checks, opened_is};
ghost use Rattle.seq_outside.specs.Env.{IsZone};
ghost use Rattle.seq_outside.specs.Halts.{Gives, halt_cause};
ghost use Rattle.seq_outside.specs.Seen.{Reads};
ghost use Rattle.seq_step.specs.Settings.{MayCommit};

use config_text::Config;
use index_file::IndexEntry;
use line_steps::Setting;
use seq_base::{Bytes, Id};
use seq_model::{Committer, Denial};
use seq_outside::{Env, Halt, Store, Variables};
use start_checks::{committer, place_in, read_index, taken_config, want_repository};
use std::alloc::{AllocError, Global};

/// HEAD's commit, which an unborn branch lacks, the configuration and the index.
#[derive(Drop)]
pub struct Opened {
    pub head: Option<Id>,
    pub config: Config,
    pub index: Vec<IndexEntry>,
}

/// The configuration, then the index.
#[tactic(auto, unfolding(reading::specs::Opening::opened_on))]
fn open_on<S: Store>(alloc: Global, head: Option<Id>, store: &mut S) -> Result<Opened, Halt<Denial>>
    ensures gives { S.told → Gives opened_is result (opened_on checks head (S.seen store.old).content) }
    ensures index { IfOk result (λ opened. IsIndex opened.index.items) }
    ensures reads { Reads S.told halt_cause result (S.seen store.old) (S.seen store.new) }
{
    let config = taken_config(alloc, store)?;
    let index = read_index(alloc, store)?;
    Ok(Opened {
        head,
        config,
        index,
    })
}

/// That there is a repository, HEAD and the refs; then the configuration and the index.
#[tactic(auto, unfolding(reading::specs::Opening::opened_at))]
pub fn open<S: Store>(alloc: Global, store: &mut S) -> Result<Opened, Halt<Denial>>
    ensures gives { S.told → Gives opened_is result (opened_at checks (S.seen store.old).content) }
    ensures index { IfOk result (λ opened. IsIndex opened.index.items) }
    ensures reads { Reads S.told halt_cause result (S.seen store.old) (S.seen store.new) }
{
    want_repository(alloc, store)?;
    let place = place_in(alloc, store)?;
    open_on(alloc, place.tip, store)
}

fn copy_of_pair(pair: &(Bytes, Bytes)) -> Result<(Bytes, Bytes), AllocError>
    ensures { IfOk result (λ copy. copy ≡ pair.now) }
{
    Ok((pair.0.clone()?, pair.1.clone()?))
}

/// The environment once more.
fn copy_of_env(alloc: Global, env: &Env) -> Result<Env, AllocError>
    ensures { IfOk result (λ copy. copy ≡ env.now) }
{
    let mut vars = Vec::new(alloc);
    let mut rest = env.vars.as_slice();
    while let [pair, after @ ..] = rest {
        let copy = copy_of_pair(pair)?;
        vars.push(copy)?;
        rest = after;
    }
    Ok(Env {
        vars: Variables::from_vec(vars),
        zone: env.zone,
    })
}

/// What a turn is given.
pub fn setting_of(
    alloc: Global,
    env: &Env,
    secs: i64,
    config: Config,
    committer: Committer,
) -> Result<Setting, AllocError>
    ensures { IfOk result (λ setting. setting ≡ record { env = env.now; secs = secs; config = config; committer = committer }) }
{
    Ok(Setting {
        env: copy_of_env(alloc, env)?,
        secs,
        config,
        committer,
    })
}

/// What a turn that starts a list is given.
#[tactic(auto, unfolding(reading::specs::Settings::setting_at))]
pub fn read_setting<S: Store>(
    alloc: Global,
    env: &Env,
    secs: i64,
    store: &mut S,
) -> Result<Setting, Halt<Denial>>
    requires { IsZone env.now.zone }
    ensures gives { S.told → Gives (λ setting. setting) result (setting_at checks env.now secs (S.seen store.old).content) }
    ensures may { IfOk result MayCommit }
    ensures reads { Reads S.told halt_cause result (S.seen store.old) (S.seen store.new) }
{
    let opened = open(alloc, store)?;
    let committer = committer(alloc, env.vars.as_slice(), &opened.config)?;
    Ok(setting_of(alloc, env, secs, opened.config, committer)?)
}
