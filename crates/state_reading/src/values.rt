//! Files of one value.

ghost use Rattle.std.specs.Prelude.{◌≡◌, All, IfOk};
ghost use Rattle.seq_base.specs.Ids.{IsId};
ghost use Rattle.seq_base.specs.RefNames.{IsRefName};
ghost use Rattle.state_text.specs.Controls.{IfThere};
ghost use Rattle.state_text.specs.Texts.{head_name_text, id_line};
ghost use Rattle.state_reading.specs.Recalls.{Recalls};
ghost use Rattle.state_reading.specs.Values.{IsAuthor, name_at as name_at_by, optional_line, optional_script};
ghost use Rattle.todo_text.specs.Spells.{IsSpelled};
ghost use Rattle.todo_text.specs.Todos.{todo_text};

use crate::keys::{id_at, id_or_zeros, owned, without_feed};
use ident_text::{Ident, IdentFault, parse_author_script};
use seq_base::{Bytes, Id, is_ref_name};
use state_text::Lines;
use std::alloc::{AllocError, Global};
use todo_text::{TodoFault, parse_todo};

/// The id of a file that has one.
#[tactic(auto, using(crate::proofs::ValueLaws::id_recalled))]
pub fn read_id(bytes: &[u8]) -> Result<Id, AllocError>
    ensures { IfOk result (λ id. Recalls IsId id_line bytes.now id) }
{
    id_or_zeros(bytes)
}

/// The id of a file that has one where it stands.
#[tactic(auto, using(crate::proofs::ValueLaws::optional_recalled))]
pub fn read_optional_id(bytes: &[u8]) -> Result<Option<Id>, AllocError>
    ensures { IfOk result (λ id. Recalls (IfThere IsId) optional_line bytes.now id) }
{
    id_at(bytes)
}

fn name_at(alloc: Global, line: &[u8]) -> Result<Option<Bytes>, AllocError>
    ensures { IfOk result (λ name. name ≡ name_at_by line.now) }
{
    if is_ref_name(line) {
        Ok(Some(owned(alloc, line)?))
    } else {
        Ok(None)
    }
}

/// The branch that `head-name` tells, or None where HEAD was detached.
#[tactic(auto, using(crate::proofs::ValueLaws::name_recalled))]
pub fn read_head_name(alloc: Global, bytes: &[u8]) -> Result<Option<Bytes>, AllocError>
    ensures { IfOk result (λ name. Recalls (IfThere IsRefName) head_name_text bytes.now name) }
{
    name_at(alloc, without_feed(bytes))
}

/// The lines of a todo.
#[tactic(auto, using(crate::proofs::ValueLaws::lines_recalled, crate::proofs::ValueLaws::no_lines_recalled))]
pub fn read_lines(alloc: Global, bytes: &[u8]) -> Result<Lines, AllocError>
    ensures { IfOk result (λ lines. Recalls (All IsSpelled) todo_text bytes.now lines) }
{
    match parse_todo(alloc, bytes, true) {
        Ok(lines) => Ok(Lines::from_vec(lines)),
        Err(TodoFault::Bad { .. }) => Ok(Lines::from_vec(Vec::new(alloc))),
        Err(TodoFault::Memory) => Err(AllocError),
    }
}

/// The author that `author-script` tells, or None where it is missing.
#[tactic(auto, using(crate::proofs::ValueLaws::author_recalled, crate::proofs::ValueLaws::no_author_recalled))]
pub fn read_author(alloc: Global, bytes: &[u8]) -> Result<Option<Ident>, AllocError>
    ensures { IfOk result (λ author. Recalls (IfThere IsAuthor) optional_script bytes.now author) }
{
    match parse_author_script(alloc, bytes) {
        Ok(ident) => Ok(Some(ident)),
        Err(IdentFault::Bad { .. }) => Ok(None),
        Err(IdentFault::Memory) => Err(AllocError),
    }
}
