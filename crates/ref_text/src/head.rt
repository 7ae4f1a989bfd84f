//! HEAD.

ghost use Rattle.std.specs.Prelude.{◌≡◌, ◌≤◌, ◌∷◌, ◌++◌, [], codes, drop, IfOk, IfSome, length, take};
ghost use Rattle.std.specs.List.{position_or_len};
ghost use Rattle.std.specs.Option.{option_map};
ghost use Rattle.grammar.specs.Grammar.{IsReading};
ghost use Rattle.hex.specs.Hex.{encode_lower};
ghost use Rattle.seq_base.specs.RefNames.{IsRefName};
ghost use Rattle.ref_text.specs.Faults.{GivesHead, IsHeadFault, IsLooseFault};
ghost use Rattle.ref_text.specs.Heads.{IsHeadValue, SpellsHead, head_text as text_of_head};
ghost use Rattle.ref_text.specs.ReadHeads.{branch_in, ends_word as ends_word_of, head_in as head_in_line, head_of, id_in, is_loose_end as is_loose_end_of, line_length, loose_of};
ghost use Rattle.ref_text.specs.Refs.{SpellsLoose};

use crate::fault::HeadFault;
use seq_base::{Bytes, Id, is_blank, is_ref_name};
use std::alloc::{AllocError, Global};

/// What HEAD is: a branch that is checked out, by its whole name, or a commit.
#[derive(Debug, Clone, PartialEq, Eq, Drop)]
pub enum Head {
    Branch(Bytes),
    Detached(Id),
}

fn branch_text(alloc: Global, name: &[u8]) -> Result<Vec<u8>, AllocError>
    ensures { IfOk result (λ text. text.items ≡ codes "ref: " ++ name.now ++ 10 ∷ []) }
{
    let mut text = Vec::from_slice(alloc, b"ref: ")?;
    text.extend_from_slice(name)?;
    text.push(b'\n')?;
    Ok(text)
}

#[tactic(auto, using(crate::proofs::Written::id_spells))]
fn id_text(alloc: Global, id: &Id) -> Result<Vec<u8>, AllocError>
    ensures text { IfOk result (λ text. text.items ≡ encode_lower id.now ++ 10 ∷ []) }
    ensures spells { IfOk result (λ text. SpellsHead (Head.Detached id.now) text.items) }
{
    let mut text = id.hex(alloc)?;
    text.push(b'\n')?;
    Ok(text)
}

/// The text of HEAD: `ref: <name>`, or the id in forty hex digits in lower case, and LF (gitrepository-layout(5), "HEAD"). The
/// branch has the name of a ref.
pub fn head_text(alloc: Global, head: &Head) -> Result<Vec<u8>, AllocError>
    requires { IsHeadValue head.now }
    ensures text { IfOk result (λ text. text.items ≡ text_of_head head.now) }
    ensures spells { IfOk result (λ text. SpellsHead head.now text.items) }
{
    match head {
        Head::Branch(name) => branch_text(alloc, name.as_slice()),
        Head::Detached(id) => id_text(alloc, id),
    }
}

/// The branch that a line names.
fn branch_of(line: &[u8]) -> Option<&[u8]>
    ensures branch { option_map (λ name. name.now) result ≡ branch_in line.now }
    ensures name { IfSome result (λ name. IsRefName name.now) }
{
    let name = line.strip_prefix(b"ref: ")?;
    if is_ref_name(name) { Some(name) } else { None }
}

/// The id that forty digits spell.
#[tactic(auto, unfolding(crate::specs::ReadHeads::id_in), using(crate::proofs::HeadLaws::no_id))]
fn id_of(digits: &[u8]) -> Option<Id>
    ensures { result ≡ id_in digits.now }
{
    match Id::from_hex(digits) {
        Ok(id) => Some(id),
        Err(_) => None,
    }
}

/// What a line says.
#[tactic(auto, unfolding(crate::specs::ReadHeads::head_in))]
fn head_in(alloc: Global, line: &[u8]) -> Result<Head, HeadFault>
    ensures gives { GivesHead result (head_in_line line.now) }
    ensures value { IfOk result IsHeadValue }
{
    if let Some(name) = branch_of(line) {
        return match Vec::from_slice(alloc, name) {
            Ok(name) => Ok(Head::Branch(Bytes::from_vec(name))),
            Err(_) => Err(HeadFault::Memory),
        };
    }
    match id_of(line) {
        Some(id) => Ok(Head::Detached(id)),
        None => Err(HeadFault::Bad),
    }
}

fn ends_word(byte: u8) -> bool
    ensures { result ≡ ends_word_of byte }
{
    is_blank(byte) || byte == b'\n'
}

/// How many bytes stand before a blank or a line feed.
#[tactic(auto, using(crate::proofs::LooseLaws::words))]
fn word_length(bytes: &[u8]) -> usize
    ensures length { result ≡ position_or_len ends_word_of bytes.now }
    ensures within { result ≤ length bytes.now }
{
    for (place, byte) in bytes.iter().enumerate() {
        if ends_word(*byte) {
            return place;
        }
    }
    bytes.len()
}

/// The line of a text, and what stands behind it.
#[tactic(auto, unfolding(crate::specs::ReadHeads::line_length))]
fn line_of(text: &[u8]) -> (&[u8], &[u8])
    ensures line { result.0.now ≡ take (line_length text.now) text.now }
    ensures end { result.1.now ≡ drop (line_length text.now) text.now }
{
    if text.starts_with(b"ref: ") {
        let place = 5 + word_length(&text[5..]);
        return text.split_at(place);
    }
    text.split_at(word_length(text))
}

#[tactic(auto, unfolding(crate::specs::ReadHeads::head_of))]
fn whole_head(alloc: Global, text: &[u8]) -> Result<Head, HeadFault>
    ensures gives { GivesHead result (head_of text.now) }
    ensures value { IfOk result IsHeadValue }
{
    let (line, end) = line_of(text);
    if end == b"\n".as_slice() {
        return head_in(alloc, line);
    }
    Err(HeadFault::Bad)
}

/// What HEAD is by its text, all of it: `ref: <name>` or forty hex digits in either case, and LF. Bad where it is neither
/// (gitrepository-layout(5), "HEAD"; git-symbolic-ref(1)).
#[tactic(auto, using(crate::proofs::LooseLaws::reading))]
pub fn parse_head(alloc: Global, text: &[u8]) -> Result<Head, HeadFault>
    ensures read { IsReading (λ head. head) (IsHeadFault text.now) SpellsHead text.now result }
    ensures gives { GivesHead result (head_of text.now) }
    ensures value { IfOk result IsHeadValue }
{
    whole_head(alloc, text)
}

/// Blanks, and a line feed or none.
#[tactic(auto, unfolding(crate::specs::ReadHeads::is_loose_end))]
fn is_loose_end(end: &[u8]) -> bool
    ensures { result ≡ is_loose_end_of end.now }
{
    let mut rest = end;
    while let [first, after @ ..] = rest {
        if *first == b'\n' {
            return after.is_empty();
        }
        if !is_blank(*first) {
            return false;
        }
        rest = after;
    }
    true
}

#[tactic(auto, unfolding(crate::specs::ReadHeads::loose_of))]
fn whole_loose(alloc: Global, text: &[u8]) -> Result<Head, HeadFault>
    ensures gives { GivesHead result (loose_of text.now) }
    ensures value { IfOk result IsHeadValue }
{
    let (line, end) = line_of(text);
    if is_loose_end(end) {
        return head_in(alloc, line);
    }
    Err(HeadFault::Bad)
}

/// What a loose ref is by its text, all of it: that of a HEAD, where blanks may stand behind its line, and the LF may be missing. Bad
/// where it is none (gitrepository-layout(5), "refs").
#[tactic(auto, using(crate::proofs::LooseLaws::reading))]
pub fn parse_loose(alloc: Global, text: &[u8]) -> Result<Head, HeadFault>
    ensures read { IsReading (λ head. head) (IsLooseFault text.now) SpellsLoose text.now result }
    ensures gives { GivesHead result (loose_of text.now) }
    ensures value { IfOk result IsHeadValue }
{
    whole_loose(alloc, text)
}
