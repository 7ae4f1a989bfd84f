//! The command of a driver's job.

ghost use Rattle.std.specs.Prelude.{◌≡◌, ◌++◌, ◌∷◌, ℕ, List, IfOk, OnOk};
ghost use Rattle.driver_pool.specs.Commands.{command_of, filled, placeholder, quoted, quoted_byte};

use crate::files::{Version, push_file_path};
use seq_base::Path;
use std::alloc::{AllocError, Global};

fn push_quoted_byte(text: &mut Vec<u8>, byte: u8) -> Result<(), AllocError>
    ensures { OnOk result (text.new.items ≡ text.old.items ++ quoted_byte byte) }
{
    match byte {
        b'\'' => text.extend_from_slice(b"'\\''"),
        b'!' => text.extend_from_slice(b"'\\!'"),
        other => {
            text.push(other)?;
            Ok(())
        }
    }
}

/// Adds a path as one word of the shell.
fn push_quoted(text: &mut Vec<u8>, path: &[u8]) -> Result<(), AllocError>
    ensures { OnOk result (text.new.items ≡ text.old.items ++ quoted path.now) }
{
    text.push(b'\'')?;
    let mut rest = path;
    while let [byte, after @ ..] = rest {
        push_quoted_byte(text, *byte)?;
        rest = after;
    }
    text.push(b'\'')?;
    Ok(())
}

fn push_placeholder(
    text: &mut Vec<u8>,
    letter: u8,
    path: &Path,
    number: u64,
) -> Result<(), AllocError>
    ensures { OnOk result (text.new.items ≡ text.old.items ++ placeholder letter path.now number) }
{
    match letter {
        b'O' => push_file_path(text, number, Version::Base),
        b'A' => push_file_path(text, number, Version::Ours),
        b'B' => push_file_path(text, number, Version::Theirs),
        b'L' => text.extend_from_slice(b"7"),
        b'P' => push_quoted(text, path.bytes()),
        b'%' => text.extend_from_slice(b"%"),
        other => {
            text.push(b'%')?;
            text.push(other)?;
            Ok(())
        }
    }
}

/// Adds a byte of a template, or what stands for it behind a `%`, and says whether it is such a `%`.
#[tactic(auto, unfolding(crate::specs::Commands::filled))]
fn push_byte(
    text: &mut Vec<u8>,
    is_behind: bool,
    byte: u8,
    path: &Path,
    number: u64,
) -> Result<bool, AllocError>
    ensures { IfOk result (λ behind. (rest : List ℕ) →
        text.new.items ++ filled behind rest path.now number ≡ text.old.items ++ filled is_behind (byte ∷ rest) path.now number) }
{
    if is_behind {
        push_placeholder(text, byte, path, number)?;
        return Ok(false);
    }
    if byte == b'%' {
        return Ok(true);
    }
    text.push(byte)?;
    Ok(false)
}

/// The command line of a merge's job, made of the driver's template (gitattributes(5), "Defining a custom merge driver"). `%O`,
/// `%A` and `%B` are the paths of the job's files, which have its number: the ancestor's version, the current one, and the other
/// branch's. `%L` is the size of conflict markers, which is 7, `%P` the path as one word of the shell, and `%%` a `%`. All else
/// stays.
#[tactic(auto, unfolding(crate::specs::Commands::filled))]
pub fn command(
    alloc: Global,
    template: &[u8],
    path: &Path,
    number: u64,
) -> Result<Vec<u8>, AllocError>
    ensures { IfOk result (λ text. text.items ≡ command_of template.now path.now number) }
{
    let mut text = Vec::new(alloc);
    let mut is_behind = false;
    let mut rest = template;
    while let [byte, after @ ..] = rest {
        is_behind = push_byte(&mut text, is_behind, *byte, path, number)?;
        rest = after;
    }
    if is_behind {
        text.extend_from_slice(b"%")?;
    }
    Ok(text)
}
