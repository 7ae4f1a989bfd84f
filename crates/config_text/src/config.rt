//! The settings of a configuration.

ghost use Rattle.std.specs.Prelude.{◌≡◌, IfOk, slice_get};
ghost use Rattle.std.specs.Option.{option_copied, option_map};
ghost use Rattle.config_text.specs.Lookups.{is_named, last_value};

use seq_base::Bytes;
use std::alloc::{AllocError, Global};
use std::marker::Model;

/// A setting. Its section and its key are in lower case; a key without a value has the value `true`, and no subsection is the
/// empty one.
#[derive(Clone, Debug, PartialEq, Eq, Drop)]
pub struct Setting {
    pub section: Bytes,
    pub sub: Bytes,
    pub key: Bytes,
    pub value: Bytes,
}

/// The settings of a configuration, in the file's order. Contracts see their list.
#[derive(Debug, Drop)]
pub struct Config {
    held: Vec<Setting>,
}

impl Model for Config {
    ghost use Rattle.std.specs.Prelude.{List};
    ghost use Rattle.config_text.specs.declared.config.Setting.{Setting};

    ghost Value = { List Setting };

    ghost view = { λ c. c.held.items };
}

fn is_named(setting: &Setting, section: &[u8], sub: &[u8], key: &[u8]) -> bool
    ensures { result ≡ is_named setting.now section.now sub.now key.now }
{
    setting.section.as_slice().eq_ignore_ascii_case(section)
        && setting.sub.as_slice() == sub
        && setting.key.as_slice().eq_ignore_ascii_case(key)
}

fn copy_of(bytes: &Bytes) -> Result<Vec<u8>, AllocError>
    ensures { IfOk result (λ v. v.items ≡ bytes.now) }
{
    let copy = bytes.clone()?;
    Ok(copy.into_vec())
}

impl Config {
    pub(crate) fn from_settings(settings: Vec<Setting>) -> Config
        ensures { result ≡ settings.items }
    {
        Config { held: settings }
    }

    /// The last value of a key, if it has one (git-config(1), "Syntax"). Sections and keys compare without ASCII case,
    /// subsections byte by byte; the empty subsection stands for none.
    pub fn get(&self, section: &[u8], sub: &[u8], key: &[u8]) -> Result<Option<Vec<u8>>, AllocError>
        ensures { IfOk result (λ found. option_map (λ v. v.items) found ≡ last_value section.now sub.now key.now self.now) }
    {
        let mut last = None;
        let mut rest = self.held.as_slice();
        while let [setting, after @ ..] = rest {
            if is_named(setting, section, sub, key) {
                last = Some(&setting.value);
            }
            rest = after;
        }
        match last {
            Some(value) => Ok(Some(copy_of(value)?)),
            None => Ok(None),
        }
    }

    /// The settings, in the file's order.
    pub fn as_slice(&self) -> &[Setting]
        ensures { result.now ≡ self.now }
    {
        &self.held
    }

    /// The setting at a place, counted from 0 in the file's order, if there is one.
    pub fn at(&self, n: usize) -> Option<&Setting>
        ensures { option_copied result ≡ slice_get self.now n }
    {
        self.held.get(n)
    }
}
