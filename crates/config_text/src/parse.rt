//! The settings of a text.

ghost use Rattle.std.specs.Prelude.{◌≡◌};
ghost use Rattle.grammar.specs.Gives.{Gives};
ghost use Rattle.grammar.specs.Grammar.{IsReading};
ghost use Rattle.config_text.specs.Configs.{IsConfig};
ghost use Rattle.config_text.specs.Faults.{IsLineFault};
ghost use Rattle.config_text.specs.Files.{GivesConfig, config_of};
ghost use Rattle.config_text.specs.Reading.{start};
ghost use Rattle.config_text.specs.Returns.{fed, read_from};

use crate::config::{Config, Setting};
use crate::fault::LineFault;
use crate::returns::TextReader;
use grammar::{ReadError, line_of_place};
use std::alloc::Global;

#[tactic(auto, unfolding(crate::specs::Returns::read_from))]
fn settings_of(alloc: Global, text: &[u8]) -> Result<Vec<Setting>, ReadError>
    ensures { Gives (λ v. v.items) result (read_from (fed start) text.now) }
{
    let mut reader = TextReader::new(alloc);
    let mut rest = text;
    while let [byte, after @ ..] = rest {
        if !reader.feed(alloc, *byte)? {
            return Err(ReadError::Stopped { left: rest.len() });
        }
        rest = after;
    }
    match reader.close(alloc)? {
        Some(settings) => Ok(settings),
        None => Err(ReadError::Stopped { left: 0 }),
    }
}

/// The settings of a configuration, in the file's order (git-config(1), "Syntax"). A line may have a header, `[section]` or
/// `[section "sub"]`, a setting, `key` or `key = value`, and a comment from `#` or `;`. Blanks stand at the front of a line,
/// around `=`, behind a header, and at least one before a quoted subsection. A section is letters, digits, `-` and `.`, a key a letter and
/// then letters, digits and `-`; in a subsection `\` stands before a byte that is taken as it is, and neither LF nor NUL stands there.
/// In a value blanks at both ends outside quotes are dropped, `\"`, `\\`, `\n`, `\t` and `\b` are escapes, and `\` before LF
/// joins two lines. A CR before LF is dropped. The settings of the sections `include` and `includeIf` are passed over.
/// Bad is the first line with which no configuration goes on, or the last one where the text ends too early: so for a key before the
/// first section, a quote that is not closed, or another escape.
#[tactic(auto, unfolding(crate::specs::Files::config_of))]
pub fn parse_config(alloc: Global, text: &[u8]) -> Result<Config, LineFault>
    ensures reads { IsReading (λ config. config) (IsLineFault IsConfig text.now) IsConfig text.now result }

    // It follows from `reads`, and says it by a function.
    ensures gives { GivesConfig result (config_of text.now) }
{
    match settings_of(alloc, text) {
        Ok(settings) => Ok(Config::from_settings(settings)),
        Err(ReadError::Memory) => Err(LineFault::Memory),
        Err(ReadError::Stopped { left }) => Err(LineFault::Bad {
            line: line_of_place(text, text.len() - left),
        }),
    }
}
