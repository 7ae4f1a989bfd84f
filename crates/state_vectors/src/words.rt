//! Words of stopped lists.

use cases::CaseFault;
use message_text::ChainKind;
use state_text::{Empty, StopWord, Verb};

pub fn verb(word: &str) -> Result<Verb, CaseFault> {
    match word {
        "rebase" => Ok(Verb::Rebase),
        "cherry-pick" => Ok(Verb::CherryPick),
        "revert" => Ok(Verb::Revert),
        _ => Err(CaseFault::Form),
    }
}

pub fn empty(word: &str) -> Result<Empty, CaseFault> {
    match word {
        "drop" => Ok(Empty::Drop),
        "keep" => Ok(Empty::Keep),
        "stop" => Ok(Empty::Stop),
        _ => Err(CaseFault::Form),
    }
}

pub fn chain_kind(word: &str) -> Result<ChainKind, CaseFault> {
    match word {
        "pick" => Ok(ChainKind::First),
        "squash" => Ok(ChainKind::Squash),
        "fixup" => Ok(ChainKind::Fixup),
        "fixup-keep" => Ok(ChainKind::Keep),
        "fixup-edit" => Ok(ChainKind::KeepEdit),
        _ => Err(CaseFault::Form),
    }
}

pub fn stop(word: &str) -> Result<StopWord, CaseFault> {
    match word {
        "conflict" => Ok(StopWord::Conflict),
        "edit" => Ok(StopWord::Edit),
        "break" => Ok(StopWord::Break),
        "exec-failed" => Ok(StopWord::ExecFailed),
        "exec-dirty" => Ok(StopWord::ExecDirty),
        "empty" => Ok(StopWord::Empty),
        "hook-refused" => Ok(StopWord::HookRefused),
        "editor-failed" => Ok(StopWord::EditorFailed),
        "empty-message" => Ok(StopWord::EmptyMessage),
        "driver-broken" => Ok(StopWord::DriverBroken),
        "blocked" => Ok(StopWord::Blocked),
        "todo-bad" => Ok(StopWord::TodoBad),
        "ref-moved" => Ok(StopWord::RefMoved),
        _ => Err(CaseFault::Form),
    }
}

pub fn verb_word(verb: Verb) -> &'static [u8] {
    match verb {
        Verb::Rebase => b"rebase",
        Verb::CherryPick => b"cherry-pick",
        Verb::Revert => b"revert",
    }
}

pub fn empty_word(empty: Empty) -> &'static [u8] {
    match empty {
        Empty::Drop => b"drop",
        Empty::Keep => b"keep",
        Empty::Stop => b"stop",
    }
}

pub fn chain_word(kind: ChainKind) -> &'static [u8] {
    match kind {
        ChainKind::First => b"pick",
        ChainKind::Squash => b"squash",
        ChainKind::Fixup => b"fixup",
        ChainKind::Keep => b"fixup-keep",
        ChainKind::KeepEdit => b"fixup-edit",
    }
}

pub fn stop_word(stop: StopWord) -> &'static [u8] {
    match stop {
        StopWord::Conflict => b"conflict",
        StopWord::Edit => b"edit",
        StopWord::Break => b"break",
        StopWord::ExecFailed => b"exec-failed",
        StopWord::ExecDirty => b"exec-dirty",
        StopWord::Empty => b"empty",
        StopWord::HookRefused => b"hook-refused",
        StopWord::EditorFailed => b"editor-failed",
        StopWord::EmptyMessage => b"empty-message",
        StopWord::DriverBroken => b"driver-broken",
        StopWord::Blocked => b"blocked",
        StopWord::TodoBad => b"todo-bad",
        StopWord::RefMoved => b"ref-moved",
    }
}
