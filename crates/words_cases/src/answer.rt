//! What the words ask for, as text.

use seq_words::{
    Action, BadWords, Command, Empty, PlumbWords, StartWords, UsageFault, Values, Verb,
};
use std::alloc::AllocError;

/// The bytes between quotes.
fn push_quoted(text: &mut Vec<u8>, bytes: &[u8]) -> Result<(), AllocError> {
    text.extend_from_slice(b" '")?;
    for byte in bytes {
        match *byte {
            b'\\' => text.extend_from_slice(b"\\\\")?,
            b'\n' => text.extend_from_slice(b"\\n")?,
            b'\r' => text.extend_from_slice(b"\\r")?,
            b'\t' => text.extend_from_slice(b"\\t")?,
            b'\'' => text.extend_from_slice(b"\\'")?,
            255 => text.extend_from_slice(b"\\!")?,
            byte => text.push(byte)?,
        }
    }
    text.push(b'\'')?;
    Ok(())
}

fn push_values(text: &mut Vec<u8>, values: &Values) -> Result<(), AllocError> {
    for value in values.as_slice() {
        push_quoted(text, value.as_slice())?;
    }
    Ok(())
}

fn push_if(text: &mut Vec<u8>, is_so: bool, name: &[u8]) -> Result<(), AllocError> {
    if is_so {
        text.push(b' ')?;
        text.extend_from_slice(name)?;
    }
    Ok(())
}

fn verb_name(verb: Verb) -> &'static [u8] {
    match verb {
        Verb::Rebase => b" rebase",
        Verb::CherryPick => b" cherry-pick",
        Verb::Revert => b" revert",
    }
}

fn action_name(action: Action) -> &'static [u8] {
    match action {
        Action::Continue => b" continue",
        Action::Skip => b" skip",
        Action::Abort => b" abort",
        Action::Quit => b" quit",
        Action::EditTodo => b" edit-todo",
    }
}

fn empty_name(empty: Empty) -> &'static [u8] {
    match empty {
        Empty::Drop => b" empty=drop",
        Empty::Keep => b" empty=keep",
        Empty::Stop => b" empty=stop",
    }
}

fn push_mainline(text: &mut Vec<u8>, mainline: Option<u32>) -> Result<(), AllocError> {
    if let Some(number) = mainline {
        text.extend_from_slice(b" mainline=")?;
        let digits = number.to_string(*text.allocator())?;
        text.extend_from_slice(digits.as_bytes())?;
    }
    Ok(())
}

fn push_options(text: &mut Vec<u8>, start: &StartWords) -> Result<(), AllocError> {
    let options = start.options;
    text.extend_from_slice(empty_name(options.empty))?;
    push_if(text, options.ff, b"ff")?;
    push_if(text, options.reschedule, b"reschedule")?;
    push_mainline(text, options.mainline)?;
    push_if(text, options.edit, b"edit")?;
    push_if(text, options.record_origin, b"record-origin")?;
    push_if(text, options.allow_empty, b"allow-empty")
}

fn push_rebase(text: &mut Vec<u8>, start: &StartWords) -> Result<(), AllocError> {
    push_if(text, start.interactive, b"interactive")?;
    push_if(text, start.merges, b"merges")?;
    push_if(text, start.autosquash, b"autosquash")?;
    push_if(text, start.update_refs, b"update-refs")?;
    if let Some(onto) = &start.onto {
        text.extend_from_slice(b" onto")?;
        push_quoted(text, onto.as_slice())?;
    }
    Ok(())
}

fn push_start(text: &mut Vec<u8>, start: &StartWords) -> Result<(), AllocError> {
    text.extend_from_slice(b"start")?;
    text.extend_from_slice(verb_name(start.verb))?;
    push_options(text, start)?;
    push_rebase(text, start)?;
    if !start.execs.as_slice().is_empty() {
        text.extend_from_slice(b" execs")?;
        push_values(text, &start.execs)?;
    }
    text.extend_from_slice(b" revs")?;
    push_values(text, &start.revs)
}

fn push_plumb(text: &mut Vec<u8>, plumb: &PlumbWords) -> Result<(), AllocError> {
    match plumb {
        PlumbWords::Init => text.extend_from_slice(b"init"),
        PlumbWords::Add { paths } => {
            text.extend_from_slice(b"add")?;
            push_values(text, paths)
        }
        PlumbWords::Rm { paths } => {
            text.extend_from_slice(b"rm")?;
            push_values(text, paths)
        }
        PlumbWords::Commit { amend, message } => {
            text.extend_from_slice(b"commit")?;
            push_if(text, *amend, b"amend")?;
            push_quoted(text, message.as_slice())
        }
        PlumbWords::Status => text.extend_from_slice(b"status"),
        PlumbWords::Cat { word } => {
            text.extend_from_slice(b"cat")?;
            push_quoted(text, word.as_slice())
        }
    }
}

fn push_command(text: &mut Vec<u8>, command: &Command) -> Result<(), AllocError> {
    match command {
        Command::Start(start) => push_start(text, start),
        Command::Act(verb, action) => {
            text.extend_from_slice(b"act")?;
            text.extend_from_slice(verb_name(*verb))?;
            text.extend_from_slice(action_name(*action))
        }
        Command::Plumb(plumb) => push_plumb(text, plumb),
    }
}

fn push_fault(text: &mut Vec<u8>, fault: &UsageFault) -> Result<(), AllocError> {
    match fault {
        UsageFault::NoVerb => text.extend_from_slice(b"usage no-verb"),
        UsageFault::UnknownVerb { word } => {
            text.extend_from_slice(b"usage unknown-verb")?;
            push_quoted(text, word.as_slice())
        }
        UsageFault::Parse => text.extend_from_slice(b"usage parse"),
        UsageFault::Value { word } => {
            text.extend_from_slice(b"usage value")?;
            push_quoted(text, word.as_slice())
        }
        UsageFault::Missing => text.extend_from_slice(b"usage missing"),
        UsageFault::Pair { first, second } => {
            text.extend_from_slice(b"usage pair")?;
            push_quoted(text, first.as_slice())?;
            push_quoted(text, second.as_slice())
        }
    }
}

pub fn push_answer(
    text: &mut Vec<u8>,
    answer: &Result<Command, BadWords>,
) -> Result<(), AllocError> {
    match answer {
        Ok(command) => push_command(text, command),
        Err(BadWords::Usage(fault)) => push_fault(text, fault),
        Err(BadWords::Memory) => text.extend_from_slice(b"memory"),
    }
}
