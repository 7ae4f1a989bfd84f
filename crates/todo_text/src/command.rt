//! The commands of the todo.

ghost use Rattle.std.specs.Prelude.{◌≡◌};
ghost use Rattle.todo_text.specs.Commands.{is_named, pick_of, command_of};

use crate::line::PickKind;

/// What a line begins with.
#[derive(Clone, Copy, Debug, PartialEq, Eq)]
pub enum Command {
    Pick(PickKind),
    Fixup,
    Exec,
    Break,
    Noop,
    Label,
    Reset,
    Merge,
    UpdateRef,
}

fn is_named(word: &[u8], whole: &[u8], letter: &[u8]) -> bool
    ensures { result ≡ is_named whole.now letter.now word.now }
{
    word == whole || word == letter
}

fn pick_of(word: &[u8]) -> Option<PickKind>
    ensures { result ≡ pick_of word.now }
{
    if is_named(word, b"pick", b"p") {
        return Some(PickKind::Pick);
    }
    if is_named(word, b"reword", b"r") {
        return Some(PickKind::Reword);
    }
    if is_named(word, b"edit", b"e") {
        return Some(PickKind::Edit);
    }
    if is_named(word, b"squash", b"s") {
        return Some(PickKind::Squash);
    }
    if is_named(word, b"drop", b"d") {
        return Some(PickKind::Drop);
    }
    if word == b"revert".as_slice() {
        return Some(PickKind::Revert);
    }
    None
}

/// The command of that word or letter, if there is one.
#[tactic(auto, unfolding(crate::specs::Commands::command_of))]
pub fn command_of(word: &[u8]) -> Option<Command>
    ensures { result ≡ command_of word.now }
{
    if let Some(kind) = pick_of(word) {
        return Some(Command::Pick(kind));
    }
    if is_named(word, b"fixup", b"f") {
        return Some(Command::Fixup);
    }
    if is_named(word, b"exec", b"x") {
        return Some(Command::Exec);
    }
    if is_named(word, b"break", b"b") {
        return Some(Command::Break);
    }
    if word == b"noop".as_slice() {
        return Some(Command::Noop);
    }
    if is_named(word, b"label", b"l") {
        return Some(Command::Label);
    }
    if is_named(word, b"reset", b"t") {
        return Some(Command::Reset);
    }
    if is_named(word, b"merge", b"m") {
        return Some(Command::Merge);
    }
    if is_named(word, b"update-ref", b"u") {
        return Some(Command::UpdateRef);
    }
    None
}
