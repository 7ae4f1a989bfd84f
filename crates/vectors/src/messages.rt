//! Cases of `message_text`.

ghost use Rattle.std.specs.Prelude.{◌≡◌, true, false, IfOk, All};
ghost use Rattle.message_text.specs.Chain.{IsChain};
ghost use Rattle.message_text.specs.Kinds.{is_first};

use cases::{Case, CaseFault, Fields};
use message_text::{
    ChainItem, ChainKind, chain_text, clean, kept_text, picked_text, revert_text, subject,
};
use seq_base::Bytes;
use std::alloc::Global;

/// TEXT
pub fn cleaned(case: &mut Case<'_>) -> Result<(), CaseFault> {
    case.out.bytes(&clean(case.alloc, case.fields.bytes()?)?)?;
    Ok(())
}

/// TEXT
pub fn subject_of(case: &mut Case<'_>) -> Result<(), CaseFault> {
    case.out.bytes(&subject(case.alloc, case.fields.bytes()?)?)?;
    Ok(())
}

/// The kind of an item behind the first.
fn later_kind(word: &str) -> Result<ChainKind, CaseFault>
    ensures { IfOk result (λ kind. is_first kind ≡ false) }
{
    match word {
        "squash" => Ok(ChainKind::Squash),
        "fixup" => Ok(ChainKind::Fixup),
        "keep" => Ok(ChainKind::Keep),
        "keep-edit" => Ok(ChainKind::KeepEdit),
        _ => Err(CaseFault::Form),
    }
}

fn first_item(message: Bytes) -> ChainItem
    ensures { is_first result.kind ≡ true }
{
    ChainItem {
        kind: ChainKind::First,
        message,
    }
}

/// The items behind the first: a kind and a message of each.
fn later_items(alloc: Global, fields: &mut Fields<'_>) -> Result<Vec<ChainItem>, CaseFault>
    ensures { IfOk result (λ items. All (λ item. is_first item.kind ≡ false) items.items) }
{
    let mut items = Vec::new(alloc);
    for _ in 0..fields.len() / 2 {
        let kind = later_kind(fields.word()?)?;
        let message = fields.owned()?;
        items.push(ChainItem { kind, message })?;
    }
    Ok(items)
}

/// The first message, and a kind and a message of each later item.
fn chain_of(alloc: Global, fields: &mut Fields<'_>) -> Result<Vec<ChainItem>, CaseFault>
    ensures { IfOk result (λ items. IsChain items.items) }
{
    let first = first_item(fields.owned()?);
    let mut items = later_items(alloc, fields)?;
    items.insert(0, first)?;
    Ok(items)
}

/// A chain.
pub fn chain(case: &mut Case<'_>) -> Result<(), CaseFault> {
    let items = chain_of(case.alloc, &mut case.fields)?;
    case.out.bytes(&chain_text(case.alloc, &items)?)?;
    Ok(())
}

/// A chain.
pub fn kept(case: &mut Case<'_>) -> Result<(), CaseFault> {
    let items = chain_of(case.alloc, &mut case.fields)?;
    case.out.bytes(&kept_text(case.alloc, &items)?)?;
    Ok(())
}

/// TEXT ID
pub fn picked(case: &mut Case<'_>) -> Result<(), CaseFault> {
    let text = case.fields.bytes()?;
    case.out
        .bytes(&picked_text(case.alloc, text, case.fields.id()?)?)?;
    Ok(())
}

/// SUBJECT ID PARENT-OR-NONE
pub fn reverted(case: &mut Case<'_>) -> Result<(), CaseFault> {
    let subject = case.fields.bytes()?;
    let id = case.fields.id()?;
    let parent = case.fields.id_or_none()?;
    case.out
        .bytes(&revert_text(case.alloc, subject, id, parent)?)?;
    Ok(())
}
