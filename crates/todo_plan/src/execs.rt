//! Exec lines.

ghost use Rattle.std.specs.Prelude.{◌≡◌, ◌++◌, IfOk, OnOk, map};
ghost use Rattle.todo_text.specs.declared.line.Line.TheVariants.{Exec};
ghost use Rattle.todo_plan.specs.Groups.{if_any, with_execs, without_execs};

use crate::groups::{begins, goes_on};
use seq_base::Bytes;
use std::alloc::{AllocError, Global};
use todo_text::Line;

fn push_execs(alloc: Global, commands: &[Bytes], lines: &mut Vec<Line>) -> Result<(), AllocError>
    ensures { OnOk result (lines.new.items ≡ lines.old.items ++ map Exec commands.now) }
{
    for command in commands {
        lines.push(Line::Exec {
            command: Bytes::from_vec(Vec::from_slice(alloc, command.as_slice())?),
        })?;
    }
    Ok(())
}

fn push_if(
    alloc: Global,
    wanted: bool,
    commands: &[Bytes],
    lines: &mut Vec<Line>,
) -> Result<(), AllocError>
    ensures { OnOk result (lines.new.items ≡ lines.old.items ++ if_any wanted (map Exec commands.now)) }
{
    if wanted {
        return push_execs(alloc, commands, lines);
    }
    Ok(())
}

/// Puts a line `exec COMMAND` for each of the commands behind each group: a pick or a merge, the squash and fixup lines that stand behind
/// it, and their update-ref lines (git-rebase(1), "--exec").
pub fn add_exec(
    alloc: Global,
    lines: Vec<Line>,
    commands: &[Bytes],
) -> Result<Vec<Line>, AllocError>
    ensures todo { IfOk result (λ all. all.items ≡ with_execs commands.now lines.items) }
    // All other lines stay, in their order.
    ensures others { IfOk result (λ all. without_execs all.items ≡ without_execs lines.items) }
{
    with_execs(alloc, lines, commands)
}

fn with_execs(alloc: Global, lines: Vec<Line>, commands: &[Bytes]) -> Result<Vec<Line>, AllocError>
    ensures { IfOk result (λ all. all.items ≡ with_execs commands.now lines.items) }
{
    let mut all = Vec::new(alloc);
    let mut inside = false;
    for line in lines {
        let goes_on = goes_on(&line);
        push_if(alloc, inside && !goes_on, commands, &mut all)?;
        inside = begins(&line) || inside && goes_on;
        all.push(line)?;
    }
    push_if(alloc, inside, commands, &mut all)?;
    Ok(all)
}
