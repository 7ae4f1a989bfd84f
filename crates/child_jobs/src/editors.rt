//! Which editor is run.

ghost use Rattle.std.specs.Prelude.{◌≡◌, IfOk, codes};
ghost use Rattle.std.specs.Option.{option_map};
ghost use Rattle.std.specs.Str.{bytes_eq};
ghost use Rattle.child_jobs.specs.Editors.{editor_for, message_editor as message_editor_of, todo_editor as todo_editor_of, variable as variable_of};

use config_text::Config;
use seq_base::Bytes;
use seq_outside::Env;
use std::alloc::{AllocError, Global};

/// The value of the first variable of a name.
pub fn variable<'a>(vars: &'a [(Bytes, Bytes)], name: &[u8]) -> Option<&'a [u8]>
    ensures { option_map (λ value. value.now) result ≡ variable_of vars.now name.now }
{
    let mut rest = vars;
    while let [first, after @ ..] = rest {
        if first.0.as_slice() == name {
            return Some(first.1.as_slice());
        }
        rest = after;
    }
    None
}

fn copy_of_variable(
    alloc: Global,
    vars: &[(Bytes, Bytes)],
    name: &[u8],
) -> Result<Option<Vec<u8>>, AllocError>
    ensures { IfOk result (λ found. option_map (λ v. v.items) found ≡ variable_of vars.now name.now) }
{
    match variable(vars, name) {
        Some(value) => Ok(Some(value.to_vec(alloc)?)),
        None => Ok(None),
    }
}

/// The editor of a message, where one is set.
fn message_editor(
    alloc: Global,
    config: &Config,
    vars: &[(Bytes, Bytes)],
) -> Result<Option<Vec<u8>>, AllocError>
    ensures { IfOk result (λ found. option_map (λ v. v.items) found ≡ message_editor_of config.now vars.now) }
{
    if let Some(editor) = copy_of_variable(alloc, vars, b"GIT_EDITOR")? {
        return Ok(Some(editor));
    }
    if let Some(editor) = config.get(b"core", b"", b"editor")? {
        return Ok(Some(editor));
    }
    if let Some(editor) = copy_of_variable(alloc, vars, b"VISUAL")? {
        return Ok(Some(editor));
    }
    copy_of_variable(alloc, vars, b"EDITOR")
}

/// The editor of a todo, where one is set.
fn todo_editor(
    alloc: Global,
    config: &Config,
    vars: &[(Bytes, Bytes)],
) -> Result<Option<Vec<u8>>, AllocError>
    ensures { IfOk result (λ found. option_map (λ v. v.items) found ≡ todo_editor_of config.now vars.now) }
{
    if let Some(editor) = copy_of_variable(alloc, vars, b"GIT_SEQUENCE_EDITOR")? {
        return Ok(Some(editor));
    }
    if let Some(editor) = config.get(b"sequence", b"", b"editor")? {
        return Ok(Some(editor));
    }
    message_editor(alloc, config, vars)
}

fn is_colon(editor: &Vec<u8>) -> bool
    ensures { result ≡ bytes_eq editor.now.items (codes ":") }
{
    editor.as_slice() == b":".as_slice()
}

/// The editor of a todo or of a message, if one is to be run (git-var(1), "GIT_SEQUENCE_EDITOR" and "GIT_EDITOR"). What is set
/// first decides, an empty text too: GIT_SEQUENCE_EDITOR and `sequence.editor`, for a todo alone; then GIT_EDITOR, `core.editor`,
/// VISUAL, EDITOR. None is run where nothing is set, or where `:` is.
pub fn editor(
    alloc: Global,
    config: &Config,
    env: &Env,
    todo: bool,
) -> Result<Option<Vec<u8>>, AllocError>
    ensures { IfOk result (λ found. option_map (λ v. v.items) found ≡ editor_for config.now env.now todo) }
{
    let vars = env.vars.as_slice();
    let found = if todo {
        todo_editor(alloc, config, vars)?
    } else {
        message_editor(alloc, config, vars)?
    };
    Ok(found.filter(|editor| !is_colon(editor)))
}
