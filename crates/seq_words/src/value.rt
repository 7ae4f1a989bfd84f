//! The values of options.

ghost use Rattle.std.specs.Prelude.{◌≡◌, ◌==◌, not};
ghost use Rattle.seq_model.specs.Faults.{empty_named as empty_named_by, is_return as is_return_byte, is_shell_line as is_shell_line_of, parent_number as parent_number_of, shell_command as shell_command_of, without_returns as without_returns_of};
ghost use Rattle.todo_text.specs.Words.{from_word};
ghost use Rattle.std.specs.Char.{is_ascii_digit};
ghost use Rattle.std.specs.List.{list_all};

use grammar::capped_value;
use seq_base::is_blank;
use seq_model::Empty;

pub fn empty_named(word: &[u8]) -> Option<Empty>
    ensures { result ≡ empty_named_by word.now }
{
    if word == b"drop".as_slice() {
        Some(Empty::Drop)
    } else if word == b"keep".as_slice() {
        Some(Empty::Keep)
    } else if word == b"stop".as_slice() {
        Some(Empty::Stop)
    } else {
        None
    }
}

fn are_digits(word: &[u8]) -> bool
    ensures { result ≡ list_all is_ascii_digit word.now }
{
    word.iter().all(|byte| byte.is_ascii_digit())
}

/// A parent's number, from 1.
pub fn parent_number(word: &[u8]) -> Option<u32>
    ensures { result ≡ parent_number_of word.now }
{
    if word.is_empty() || !are_digits(word) {
        return None;
    }
    let number = capped_value(word);
    if number > 0 && number <= 4_294_967_295 {
        Some(number as u32)
    } else {
        None
    }
}

fn without_blanks(text: &[u8]) -> &[u8]
    ensures { result.now ≡ from_word text.now }
{
    let mut rest = text;
    while let [first, after @ ..] = rest {
        if !is_blank(*first) {
            return rest;
        }
        rest = after;
    }
    rest
}

fn is_return(byte: u8) -> bool
    ensures { result ≡ is_return_byte byte }
{
    byte == b'\r'
}

fn without_returns(text: &[u8]) -> &[u8]
    ensures { result.now ≡ without_returns_of text.now }
{
    let mut rest = text;
    while let [before @ .., last] = rest {
        if !is_return(*last) {
            return rest;
        }
        rest = before;
    }
    rest
}

/// The command that a value of `-x` is: without the blanks in front, and without the carriage returns at its end.
pub fn shell_command(word: &[u8]) -> &[u8]
    ensures { result.now ≡ shell_command_of word.now }
{
    without_returns(without_blanks(word))
}

fn has_no_feed(command: &[u8]) -> bool
    ensures { result ≡ list_all (λ b. not (b == 10)) command.now }
{
    command.iter().all(|byte| *byte != b'\n')
}

/// It is not empty, and stands on one line.
pub fn is_shell_line(command: &[u8]) -> bool
    ensures { result ≡ is_shell_line_of command.now }
{
    !command.is_empty() && has_no_feed(command)
}
