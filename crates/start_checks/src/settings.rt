//! The configuration.

ghost use Rattle.std.specs.Prelude.{◌≡◌, IfOk, IsErrOf};
ghost use Rattle.std.specs.Char.{is_ascii_digit};
ghost use Rattle.std.specs.List.{list_all, list_any};
ghost use Rattle.std.specs.Option.{option_map};
ghost use Rattle.config_text.specs.Files.{config_of};
ghost use Rattle.seq_model.specs.Settings.{are_supported, count_in, is_extension as is_extension_setting, is_known_version as is_known_version_text, is_short as is_short_text, is_unsupported as is_unsupported_before, is_version as is_version_setting, jobs_in, jobs_of, key_name as name_of_key, or_bad_config, section_name as name_of_section, settings_at, settings_in, unsupported as unsupported_of, within_jobs as within_jobs_of};
ghost use Rattle.seq_outside.specs.Halts.{Gives, halt_cause};
ghost use Rattle.seq_outside.specs.Seen.{Reads};

use config_text::{Config, LineFault, Setting, parse_config};
use grammar::capped_value;
use seq_base::Bytes;
use seq_model::{Denial, LimitWhat, Refusal, refused};
use seq_outside::{Halt, Store};
use std::alloc::{AllocError, Global};

fn config_in(alloc: Global, text: &[u8]) -> Result<Config, Halt<Denial>>
    ensures gives { Gives (λ config. config) result (or_bad_config (config_of text.now)) }
    ensures no_fault { IsErrOf result Halt.Fault → ⊥ }
{
    match parse_config(alloc, text) {
        Ok(config) => Ok(config),
        Err(LineFault::Bad { line }) => Err(refused(Refusal::BadConfig { line })),
        Err(LineFault::Memory) => Err(Halt::Memory),
    }
}

/// The configuration, of which a missing file has no setting (git-config(1), "Files"). BadConfig with its first bad line.
#[tactic(auto, unfolding(seq_model::specs::Settings::settings_at))]
pub fn read_config<S: Store>(alloc: Global, store: &mut S) -> Result<Config, Halt<Denial>>
    ensures gives { S.told → Gives (λ config. config) result (settings_at (S.seen store.old).content) }
    ensures reads { Reads S.told halt_cause result (S.seen store.old) (S.seen store.new) }
{
    match store.get(alloc, b".git/config")? {
        Some(text) => config_in(alloc, &text),
        None => config_in(alloc, b""),
    }
}

// ---- what is not supported

fn is_extension(setting: &Setting) -> bool
    ensures { result ≡ is_extension_setting setting.now }
{
    setting.section.as_slice() == b"extensions".as_slice()
}

fn is_version(setting: &Setting) -> bool
    ensures { result ≡ is_version_setting setting.now }
{
    setting.section.as_slice() == b"core".as_slice()
        && setting.sub.as_slice().is_empty()
        && setting.key.as_slice() == b"repositoryformatversion".as_slice()
}

fn has_version(settings: &[Setting]) -> bool
    ensures { result ≡ list_any is_version_setting settings.now }
{
    settings.iter().any(|setting| is_version(setting))
}

fn is_known_version(value: &[u8]) -> bool
    ensures { result ≡ is_known_version_text value.now }
{
    value == b"0".as_slice() || value == b"1".as_slice()
}

/// Whether the setting, before these others, asks for what is not there.
fn is_unsupported(setting: &Setting, later: &[Setting]) -> bool
    ensures { result ≡ is_unsupported_before setting.now later.now }
{
    is_extension(setting)
        || (is_version(setting)
            && !has_version(later)
            && !is_known_version(setting.value.as_slice()))
}

/// The first setting that asks for what is not there.
#[tactic(auto, unfolding(seq_model::specs::Settings::unsupported))]
fn unsupported(settings: &[Setting]) -> Option<&Setting>
    ensures { option_map (λ setting. setting.now) result ≡ unsupported_of settings.now }
{
    let mut rest = settings;
    while let [setting, later @ ..] = rest {
        if is_unsupported(setting, later) {
            return Some(setting);
        }
        rest = later;
    }
    None
}

/// The section, and the subsection where there is one, joined by `.`.
fn section_name(alloc: Global, setting: &Setting) -> Result<Vec<u8>, AllocError>
    ensures { IfOk result (λ name. name.items ≡ name_of_section setting.now) }
{
    let mut name = setting.section.as_slice().to_vec(alloc)?;
    if setting.sub.as_slice().is_empty() {
        return Ok(name);
    }
    name.push(b'.')?;
    name.extend_from_slice(setting.sub.as_slice())?;
    Ok(name)
}

/// The same with the key behind it.
fn key_name(alloc: Global, setting: &Setting) -> Result<Bytes, AllocError>
    ensures { IfOk result (λ name. name ≡ name_of_key setting.now) }
{
    let mut name = section_name(alloc, setting)?;
    name.push(b'.')?;
    name.extend_from_slice(setting.key.as_slice())?;
    Ok(Bytes::from_vec(name))
}

/// Unsupported with the key of the first setting that asks for what is not there: `core.repositoryformatversion`, whose last value counts,
/// with another than 0 or 1, and every key of the section `extensions` (gitrepository-layout(5)).
#[tactic(auto, unfolding(seq_model::specs::Settings::are_supported))]
pub fn want_supported(alloc: Global, config: &Config) -> Result<(), Halt<Denial>>
    ensures gives { Gives (λ x. x) result (are_supported config.now) }
    ensures no_fault { IsErrOf result Halt.Fault → ⊥ }
{
    match unsupported(config.as_slice()) {
        Some(setting) => {
            let key = key_name(alloc, setting)?;
            Err(refused(Refusal::Unsupported { key }))
        }
        None => Ok(()),
    }
}

// ---- how many merge drivers run at once

fn are_digits(text: &[u8]) -> bool
    ensures { result ≡ list_all is_ascii_digit text.now }
{
    text.iter().all(|byte| byte.is_ascii_digit())
}

fn is_short(text: &[u8]) -> bool
    ensures { result ≡ is_short_text text.now }
{
    !text.is_empty() && text.len() < 10
}

#[tactic(auto, unfolding(seq_model::specs::Settings::within_jobs))]
fn within_jobs(jobs: u64) -> Result<u8, Halt<Denial>>
    ensures gives { Gives (λ jobs. jobs) result (within_jobs_of jobs) }
    ensures no_fault { IsErrOf result Halt.Fault → ⊥ }
{
    if jobs == 0 || jobs > 16 {
        return Err(Halt::Stops(Denial::Limit {
            what: LimitWhat::Jobs,
            number: jobs,
        }));
    }
    Ok(jobs as u8)
}

/// The number that a count writes.
#[tactic(auto, using(crate::proofs::Counts::count_fits))]
fn count_of(text: &[u8]) -> Option<u64>
    ensures { result ≡ count_in text.now }
{
    if is_short(text) && are_digits(text) {
        Some(capped_value(text))
    } else {
        None
    }
}

#[tactic(auto, unfolding(seq_model::specs::Settings::jobs_in))]
fn jobs_by(alloc: Global, text: &[u8]) -> Result<u8, Halt<Denial>>
    ensures gives { Gives (λ jobs. jobs) result (jobs_in text.now) }
    ensures no_fault { IsErrOf result Halt.Fault → ⊥ }
{
    match count_of(text) {
        Some(jobs) => within_jobs(jobs),
        None => {
            let key = Bytes::from_vec(b"gitseq.jobs".to_vec(alloc)?);
            Err(refused(Refusal::Unsupported { key }))
        }
    }
}

/// How many merge drivers run at once, 1 to 16, by the last value of `gitseq.jobs`; 1 where it has none. Unsupported with this key where
/// the value is not 1 to 9 decimal digits, and Limit where it is 0 or more than 16.
#[tactic(auto, unfolding(seq_model::specs::Settings::jobs_of))]
pub fn driver_jobs(alloc: Global, config: &Config) -> Result<u8, Halt<Denial>>
    ensures gives { Gives (λ jobs. jobs) result (jobs_of config.now) }
    ensures no_fault { IsErrOf result Halt.Fault → ⊥ }
{
    match config.get(b"gitseq", b"", b"jobs")? {
        Some(text) => jobs_by(alloc, &text),
        None => Ok(1),
    }
}

/// `read_config`, of a configuration that passes `want_supported` and `driver_jobs`.
#[tactic(auto, unfolding(seq_model::specs::Settings::settings_in))]
pub fn taken_config<S: Store>(alloc: Global, store: &mut S) -> Result<Config, Halt<Denial>>
    ensures gives { S.told → Gives (λ config. config) result (settings_in (S.seen store.old).content) }
    ensures reads { Reads S.told halt_cause result (S.seen store.old) (S.seen store.new) }
{
    let config = read_config(alloc, store)?;
    want_supported(alloc, &config)?;
    let _jobs = driver_jobs(alloc, &config)?;
    Ok(config)
}
