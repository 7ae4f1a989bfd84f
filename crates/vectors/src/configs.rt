//! Cases of `config_text`.

use crate::failure::{Failure, value};
use cases::{Answer, Case, CaseFault};
use config_text::{Config, LineFault, parse_config};
use std::alloc::AllocError;

impl Failure for LineFault {
    fn tell(self, out: &mut Answer) -> Result<(), AllocError> {
        match self {
            LineFault::Bad { line } => out.counted(b"bad-line", line),
            LineFault::Memory => Err(AllocError),
        }
    }
}

fn put_settings(out: &mut Answer, config: &Config) -> Result<(), AllocError> {
    for n in 0..usize::MAX {
        let Some(setting) = config.at(n) else {
            return Ok(())
        };
        out.bytes(setting.section.as_slice())?;
        out.bytes(setting.sub.as_slice())?;
        out.bytes(setting.key.as_slice())?;
        out.bytes(setting.value.as_slice())?;
    }
    Ok(())
}

/// TEXT: section, subsection, key and value of each setting.
pub fn settings(case: &mut Case<'_>) -> Result<(), CaseFault> {
    let parsed = parse_config(case.alloc, case.fields.bytes()?);
    let config = value(parsed, &mut case.out)?;
    case.out.word(b"settings")?;
    put_settings(&mut case.out, &config)?;
    Ok(())
}

/// TEXT SECTION SUBSECTION KEY: the last value.
pub fn last_value(case: &mut Case<'_>) -> Result<(), CaseFault> {
    let parsed = parse_config(case.alloc, case.fields.bytes()?);
    let config = value(parsed, &mut case.out)?;
    let section = case.fields.bytes()?;
    let sub = case.fields.bytes()?;
    let key = case.fields.bytes()?;
    match config.get(section, sub, key)? {
        Some(value) => case.out.bytes(&value)?,
        None => case.out.word(b"none")?,
    }
    Ok(())
}
