//! What holds of todos and their texts. Each of these functions does nothing: its clause is the law.

ghost use Rattle.std.specs.Prelude.{◌≡◌};
ghost use Rattle.todo_text.specs.Spells.{Spells};
ghost use Rattle.todo_text.specs.Todos.{SpellsTodo, todo_text};

use crate::line::Line;

/// A text spells one line at most.
pub fn lines_differ_in_every_text(text: &[u8], a: &Line, b: &Line)
    ensures { Spells a.now text.now → Spells b.now text.now → a.now ≡ b.now }
{}

/// The texts that are written of the lines of a todo spell these lines.
pub fn todo_reads_back(bytes: &[u8], earlier: bool, lines: &[Line])
    ensures { SpellsTodo earlier bytes.now lines.now → SpellsTodo earlier (todo_text lines.now) lines.now }
{}
