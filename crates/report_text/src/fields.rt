//! The fields of a report, one space before each.
#![tactic(auto, using(crate::proofs::Appends::appends))]

ghost use Rattle.std.specs.Prelude.{◌≡◌, ◌++◌, OnOk};
ghost use Rattle.seq_model.specs.IndexFaults.{index_fault_fields};
ghost use Rattle.seq_model.specs.Fields.{escaped, bytes_field, number_field, id_field, found_field, exit_field, limit_fields, todo_bad_fields};

use crate::names::{limit_what_name, todo_kind_name};
use index_file::IndexFault;
use seq_base::Id;
use seq_model::{LimitWhat, TodoKind};
use seq_outside::Exit;
use std::alloc::AllocError;

/// A backslash and a line feed are escaped.
fn push_escaped(text: &mut Vec<u8>, bytes: &[u8]) -> Result<(), AllocError>
    ensures { OnOk result (text.new.items ≡ text.old.items ++ escaped bytes.now) }
{
    let mut rest = bytes;
    while let [b, after @ ..] = rest {
        match *b {
            b'\\' => text.extend_from_slice(b"\\\\")?,
            b'\n' => text.extend_from_slice(b"\\n")?,
            b => text.push(b)?,
        }
        rest = after;
    }
    Ok(())
}

pub fn push_bytes(text: &mut Vec<u8>, bytes: &[u8]) -> Result<(), AllocError>
    ensures { OnOk result (text.new.items ≡ text.old.items ++ bytes_field bytes.now) }
{
    text.push(b' ')?;
    push_escaped(text, bytes)
}

pub fn push_number(text: &mut Vec<u8>, number: u64) -> Result<(), AllocError>
    ensures { OnOk result (text.new.items ≡ text.old.items ++ number_field number) }
{
    text.push(b' ')?;
    let digits = number.to_string(*text.allocator())?;
    text.extend_from_slice(digits.as_bytes())
}

pub fn push_id(text: &mut Vec<u8>, id: Id) -> Result<(), AllocError>
    ensures { OnOk result (text.new.items ≡ text.old.items ++ id_field id) }
{
    text.push(b' ')?;
    let digits = id.hex(*text.allocator())?;
    text.extend_from_slice(&digits)
}

pub fn push_found(text: &mut Vec<u8>, found: Option<Id>) -> Result<(), AllocError>
    ensures { OnOk result (text.new.items ≡ text.old.items ++ found_field found) }
{
    match found {
        None => text.extend_from_slice(b" none"),
        Some(id) => push_id(text, id),
    }
}

pub fn push_exit(text: &mut Vec<u8>, exit: Exit) -> Result<(), AllocError>
    ensures { OnOk result (text.new.items ≡ text.old.items ++ exit_field exit) }
{
    match exit {
        Exit::Code(code) => {
            text.extend_from_slice(b" exit")?;
            push_number(text, u64::from(code))
        }
        Exit::Killed => text.extend_from_slice(b" killed"),
    }
}

pub fn push_limit(text: &mut Vec<u8>, what: LimitWhat, number: u64) -> Result<(), AllocError>
    ensures { OnOk result (text.new.items ≡ text.old.items ++ limit_fields what number) }
{
    text.push(b' ')?;
    text.extend_from_slice(limit_what_name(what))?;
    push_number(text, number)
}

pub fn push_todo_bad(text: &mut Vec<u8>, line: u64, kind: TodoKind) -> Result<(), AllocError>
    ensures { OnOk result (text.new.items ≡ text.old.items ++ todo_bad_fields line kind) }
{
    push_number(text, line)?;
    text.push(b' ')?;
    text.extend_from_slice(todo_kind_name(kind))
}

fn push_named_number(text: &mut Vec<u8>, name: &[u8], number: u64) -> Result<(), AllocError>
    ensures { OnOk result (text.new.items ≡ text.old.items ++ (name.now ++ number_field number)) }
{
    text.extend_from_slice(name)?;
    push_number(text, number)
}

pub fn push_index_fault(text: &mut Vec<u8>, fault: IndexFault) -> Result<(), AllocError>
    ensures { OnOk result (text.new.items ≡ text.old.items ++ index_fault_fields fault) }
{
    match fault {
        IndexFault::Magic => text.extend_from_slice(b" magic"),
        IndexFault::Version { n } => push_named_number(text, b" version", n),
        IndexFault::Count => text.extend_from_slice(b" count"),
        IndexFault::Name { n } => push_named_number(text, b" name", n),
        IndexFault::Order { n } => push_named_number(text, b" order", n),
        IndexFault::Extension { tag } => {
            text.extend_from_slice(b" extension")?;
            push_bytes(text, &tag)
        }
        IndexFault::Hash => text.extend_from_slice(b" hash"),
        IndexFault::Memory => text.extend_from_slice(b" memory"),
    }
}

pub fn push_two_ids(text: &mut Vec<u8>, first: Id, second: Id) -> Result<(), AllocError>
    ensures { OnOk result (text.new.items ≡ text.old.items ++ (id_field first ++ id_field second)) }
{
    push_id(text, first)?;
    push_id(text, second)
}

pub fn push_two_bytes(text: &mut Vec<u8>, first: &[u8], second: &[u8]) -> Result<(), AllocError>
    ensures { OnOk result (text.new.items ≡ text.old.items ++ (bytes_field first.now ++ bytes_field second.now)) }
{
    push_bytes(text, first)?;
    push_bytes(text, second)
}

pub fn push_bytes_exit(text: &mut Vec<u8>, bytes: &[u8], exit: Exit) -> Result<(), AllocError>
    ensures { OnOk result (text.new.items ≡ text.old.items ++ (bytes_field bytes.now ++ exit_field exit)) }
{
    push_bytes(text, bytes)?;
    push_exit(text, exit)
}

pub fn push_bytes_found(
    text: &mut Vec<u8>,
    bytes: &[u8],
    found: Option<Id>,
) -> Result<(), AllocError>
    ensures { OnOk result (text.new.items ≡ text.old.items ++ (bytes_field bytes.now ++ found_field found)) }
{
    push_bytes(text, bytes)?;
    push_found(text, found)
}

pub fn push_ambiguous(
    text: &mut Vec<u8>,
    word: &[u8],
    first: Id,
    second: Id,
) -> Result<(), AllocError>
    ensures { OnOk result (text.new.items ≡ text.old.items ++ (bytes_field word.now ++ (id_field first ++ id_field second))) }
{
    push_bytes(text, word)?;
    push_two_ids(text, first, second)
}
