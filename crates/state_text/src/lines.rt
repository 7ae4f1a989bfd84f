//! Lines of state files are written.

ghost use Rattle.std.specs.Prelude.{◌≡◌, ◌++◌, All, IfOk, OnOk};
ghost use Rattle.std.specs.List.{flat_map};
ghost use Rattle.hex.specs.Hex.{encode_lower};
ghost use Rattle.object_text.specs.Commits.{line};
ghost use Rattle.todo_text.specs.Spells.{IsSpelled, canonical};
ghost use Rattle.todo_text.specs.Todos.{todo_text};
ghost use Rattle.state_text.specs.Texts.{chain_line, chain_word as word_of_chain, id_line, label_line, number_line, pair_line, update_lines, value_line};

use crate::control::RefUpdate;
use itoa::Buffer;
use message_text::ChainKind;
use seq_base::{Bytes, Id};
use std::alloc::{AllocError, Global};
use todo_text::{Line, line_text};

pub fn put_line(out: &mut Vec<u8>, text: &[u8]) -> Result<(), AllocError>
    ensures { OnOk result (out.new.items ≡ out.old.items ++ line text.now) }
{
    out.extend_from_slice(text)?;
    out.push(b'\n')?;
    Ok(())
}

/// Writes a line of a key and its value.
pub fn put_pair(out: &mut Vec<u8>, key: &[u8], value: &[u8]) -> Result<(), AllocError>
    ensures { OnOk result (out.new.items ≡ out.old.items ++ line (key.now ++ value.now)) }
{
    out.extend_from_slice(key)?;
    out.extend_from_slice(value)?;
    out.push(b'\n')?;
    Ok(())
}

pub fn put_hex(alloc: Global, out: &mut Vec<u8>, id: &Id) -> Result<(), AllocError>
    ensures { OnOk result (out.new.items ≡ out.old.items ++ encode_lower id.now) }
{
    let digits = id.hex(alloc)?;
    out.extend_from_slice(digits.as_slice())
}

pub fn put_id(alloc: Global, out: &mut Vec<u8>, id: &Id) -> Result<(), AllocError>
    ensures { OnOk result (out.new.items ≡ out.old.items ++ id_line id.now) }
{
    let digits = id.hex(alloc)?;
    put_line(out, digits.as_slice())
}

pub fn put_number(out: &mut Vec<u8>, number: u128) -> Result<(), AllocError>
    ensures { OnOk result (out.new.items ≡ out.old.items ++ number_line number) }
{
    let mut buffer = Buffer::new();
    put_line(out, buffer.format(number).as_bytes())
}

fn put_id_pair(alloc: Global, out: &mut Vec<u8>, old: &Id, new: &Id) -> Result<(), AllocError>
    ensures { OnOk result (out.new.items ≡ out.old.items ++ pair_line (old.now, new.now)) }
{
    put_hex(alloc, out, old)?;
    out.push(b' ')?;
    put_id(alloc, out, new)
}

fn chain_word(kind: ChainKind) -> &'static [u8]
    ensures { result.now ≡ word_of_chain kind }
{
    match kind {
        ChainKind::First => b"pick ",
        ChainKind::Squash => b"squash ",
        ChainKind::Fixup => b"fixup ",
        ChainKind::Keep => b"fixup -C ",
        ChainKind::KeepEdit => b"fixup -c ",
    }
}

fn put_chain_item(
    alloc: Global,
    out: &mut Vec<u8>,
    kind: ChainKind,
    id: &Id,
) -> Result<(), AllocError>
    ensures { OnOk result (out.new.items ≡ out.old.items ++ chain_line (kind, id.now)) }
{
    out.extend_from_slice(chain_word(kind))?;
    put_id(alloc, out, id)
}

fn put_value(alloc: Global, out: &mut Vec<u8>, value: &Option<Id>) -> Result<(), AllocError>
    ensures { OnOk result (out.new.items ≡ out.old.items ++ value_line value.now) }
{
    match value {
        Some(id) => put_id(alloc, out, id),
        None => put_line(out, b"0000000000000000000000000000000000000000"),
    }
}

fn put_update(alloc: Global, out: &mut Vec<u8>, update: &RefUpdate) -> Result<(), AllocError>
    ensures { OnOk result (out.new.items ≡ out.old.items ++ update_lines update.now) }
{
    put_line(out, update.name.as_slice())?;
    put_value(alloc, out, &update.expected)?;
    put_value(alloc, out, &update.new)
}

fn put_todo_line(alloc: Global, out: &mut Vec<u8>, line: &Line) -> Result<(), AllocError>
    requires { IsSpelled line.now }
    ensures { OnOk result (out.new.items ≡ out.old.items ++ canonical line.now) }
{
    let text = line_text(alloc, line)?;
    out.extend_from_slice(text.as_slice())
}

fn put_label(out: &mut Vec<u8>, label: &[u8]) -> Result<(), AllocError>
    ensures { OnOk result (out.new.items ≡ out.old.items ++ label_line label.now) }
{
    put_pair(out, b"refs/rewritten/", label)
}

/// The todo of these lines.
pub fn todo_of(alloc: Global, lines: &[Line]) -> Result<Vec<u8>, AllocError>
    requires { All IsSpelled lines.now }
    ensures { IfOk result (λ text. text.items ≡ todo_text lines.now) }
{
    let mut out = Vec::new(alloc);
    for line in lines {
        put_todo_line(alloc, &mut out, line)?;
    }
    Ok(out)
}

/// For each commit the one that took its place.
pub fn pairs_of(alloc: Global, pairs: &[(Id, Id)]) -> Result<Vec<u8>, AllocError>
    ensures { IfOk result (λ text. text.items ≡ flat_map pair_line pairs.now) }
{
    let mut out = Vec::new(alloc);
    for (old, new) in pairs {
        put_id_pair(alloc, &mut out, old, new)?;
    }
    Ok(out)
}

pub fn ids_of(alloc: Global, ids: &[Id]) -> Result<Vec<u8>, AllocError>
    ensures { IfOk result (λ text. text.items ≡ flat_map id_line ids.now) }
{
    let mut out = Vec::new(alloc);
    for id in ids {
        put_id(alloc, &mut out, id)?;
    }
    Ok(out)
}

pub fn labels_of(alloc: Global, labels: &[Bytes]) -> Result<Vec<u8>, AllocError>
    ensures { IfOk result (λ text. text.items ≡ flat_map label_line labels.now) }
{
    let mut out = Vec::new(alloc);
    for label in labels {
        put_label(&mut out, label.as_slice())?;
    }
    Ok(out)
}

pub fn updates_of(alloc: Global, updates: &[RefUpdate]) -> Result<Vec<u8>, AllocError>
    ensures { IfOk result (λ text. text.items ≡ flat_map update_lines updates.now) }
{
    let mut out = Vec::new(alloc);
    for update in updates {
        put_update(alloc, &mut out, update)?;
    }
    Ok(out)
}

pub fn chain_of(alloc: Global, chain: &[(ChainKind, Id)]) -> Result<Vec<u8>, AllocError>
    ensures { IfOk result (λ text. text.items ≡ flat_map chain_line chain.now) }
{
    let mut out = Vec::new(alloc);
    for (kind, id) in chain {
        put_chain_item(alloc, &mut out, *kind, id)?;
    }
    Ok(out)
}
