//! Stopped lists, in cases: verb, options, branch, where it was and is to be, lines done, lines left, the todo as it was made, labels,
//! updates, rewritten commits, commits that wait, chain, why and where it stopped, and the commit that is pending.

ghost use Rattle.ident_text.specs.Idents.{IsIdentValue};
ghost use Rattle.state_text.specs.Controls.{IfThere, IsLeft, IsTold};
ghost use Rattle.state_text.specs.Texts.{author_of};
ghost use Rattle.std.specs.Prelude.{All, IfOk};
ghost use Rattle.todo_text.specs.Spells.{IsSpelled};

use crate::words;
use cases::{Case, CaseFault};
use ident_text::{Ident, parse_ident};
use seq_base::{Bytes, Id};
use state_text::{
    Chain, Control, Form, IdPairs, Ids, Labels, Left, Lines, Options, Pending, RefUpdate,
    RefUpdates,
};
use todo_text::{Line, parse_todo};

/// Bytes, or none where the field is empty.
fn owned_or_none(case: &mut Case<'_>) -> Result<Option<Bytes>, CaseFault> {
    let bytes = case.fields.owned()?;
    if bytes.as_slice().is_empty() {
        return Ok(None);
    }
    Ok(Some(bytes))
}

/// The parent, or 0 for none.
fn mainline(case: &mut Case<'_>) -> Result<Option<u32>, CaseFault> {
    match u32::try_from(case.fields.number()?) {
        Ok(0) => Ok(None),
        Ok(number) => Ok(Some(number)),
        Err(_) => Err(CaseFault::Form),
    }
}

fn options(case: &mut Case<'_>) -> Result<Options, CaseFault> {
    let empty = words::empty(case.fields.word()?)?;
    let ff = case.fields.yes_or_no()?;
    let reschedule = case.fields.yes_or_no()?;
    let mainline = mainline(case)?;
    let edit = case.fields.yes_or_no()?;
    let record_origin = case.fields.yes_or_no()?;
    let allow_empty = case.fields.yes_or_no()?;
    Ok(Options {
        ff,
        empty,
        reschedule,
        mainline,
        edit,
        record_origin,
        allow_empty,
    })
}

/// The text of a todo: its lines.
fn lines(case: &mut Case<'_>) -> Result<Vec<Line>, CaseFault>
    ensures { IfOk result (λ lines. All IsSpelled lines.items) }
{
    match parse_todo(case.alloc, case.fields.bytes()?, true) {
        Ok(lines) => Ok(lines),
        Err(_) => Err(CaseFault::Value),
    }
}

/// `lines` and the text of a todo, or `raw` and bytes.
fn left(case: &mut Case<'_>) -> Result<Left, CaseFault>
    ensures { IfOk result (λ left. IsLeft left) }
{
    if case.fields.yes_or_no()? {
        return Ok(Left::Lines(Lines::from_vec(lines(case)?)));
    }
    Ok(Left::Raw(case.fields.owned()?))
}

fn labels(case: &mut Case<'_>) -> Result<Labels, CaseFault> {
    let count = case.fields.number()?;
    let mut labels = Vec::new(case.alloc);
    for _ in 0..count {
        labels.push(case.fields.owned()?)?;
    }
    Ok(Labels::from_vec(labels))
}

fn updates(case: &mut Case<'_>) -> Result<RefUpdates, CaseFault> {
    let count = case.fields.number()?;
    let mut updates = Vec::new(case.alloc);
    for _ in 0..count {
        let name = case.fields.owned()?;
        let expected = case.fields.id_or_none()?;
        let new = case.fields.id_or_none()?;
        updates.push(RefUpdate {
            name,
            expected,
            new,
        })?;
    }
    Ok(RefUpdates::from_vec(updates))
}

fn rewritten(case: &mut Case<'_>) -> Result<IdPairs, CaseFault> {
    let count = case.fields.number()?;
    let mut pairs = Vec::new(case.alloc);
    for _ in 0..count {
        let old = case.fields.id()?;
        let new = case.fields.id()?;
        pairs.push((old, new))?;
    }
    Ok(IdPairs::from_vec(pairs))
}

fn waiting(case: &mut Case<'_>) -> Result<Ids, CaseFault> {
    let count = case.fields.number()?;
    let mut ids = Vec::new(case.alloc);
    for _ in 0..count {
        ids.push(case.fields.id()?)?;
    }
    Ok(Ids::from_vec(ids))
}

fn chain(case: &mut Case<'_>) -> Result<Chain, CaseFault> {
    let count = case.fields.number()?;
    let mut items = Vec::new(case.alloc);
    for _ in 0..count {
        let kind = words::chain_kind(case.fields.word()?)?;
        let id = case.fields.id()?;
        items.push((kind, id))?;
    }
    Ok(Chain::from_vec(items))
}

/// A word, and of a merge the other head.
fn form(case: &mut Case<'_>, word: &str) -> Result<Form, CaseFault> {
    match word {
        "new" => Ok(Form::New),
        "amend" => Ok(Form::Amend),
        "merge" => {
            let other: Id = case.fields.id()?;
            Ok(Form::Merge(other))
        }
        _ => Err(CaseFault::Form),
    }
}

/// The text of an ident, or none where the field is empty.
fn author(case: &mut Case<'_>) -> Result<Option<Ident>, CaseFault>
    ensures { IfOk result (λ author. IfThere IsIdentValue author) }
{
    let text = case.fields.bytes()?;
    if text.is_empty() {
        return Ok(None);
    }
    match parse_ident(case.alloc, text) {
        Ok(ident) => Ok(Some(ident)),
        Err(_) => Err(CaseFault::Value),
    }
}

fn pending_of(case: &mut Case<'_>, form: Form) -> Result<Pending, CaseFault>
    ensures { IfOk result (λ pending. IfThere IsIdentValue pending.author) }
{
    let edit = case.fields.yes_or_no()?;
    let author = author(case)?;
    let encoding = owned_or_none(case)?;
    let message = case.fields.owned()?;
    Ok(Pending {
        form,
        edit,
        author,
        encoding,
        message,
    })
}

/// `none`, or the form, whether the editor is to see its message, author, encoding and message.
fn pending(case: &mut Case<'_>) -> Result<Option<Pending>, CaseFault>
    ensures { IfOk result (λ pending. IfThere IsIdentValue (author_of pending)) }
{
    let word = case.fields.word()?;
    if word == "none" {
        return Ok(None);
    }
    let form = form(case, word)?;
    Ok(Some(pending_of(case, form)?))
}

pub fn control(case: &mut Case<'_>) -> Result<Control, CaseFault>
    ensures { IfOk result (λ control. IsTold control) }
{
    let verb = words::verb(case.fields.word()?)?;
    let options = options(case)?;
    let head_name = owned_or_none(case)?;
    let orig = case.fields.id()?;
    let onto = case.fields.id()?;
    let done = Lines::from_vec(lines(case)?);
    let left = left(case)?;
    let backup = case.fields.owned()?;
    let labels = labels(case)?;
    let updates = updates(case)?;
    let rewritten = rewritten(case)?;
    let waiting = waiting(case)?;
    let chain = chain(case)?;
    let stop = words::stop(case.fields.word()?)?;
    let stopped_head = case.fields.id()?;
    let stopped_commit = case.fields.id_or_none()?;
    let pending = pending(case)?;
    Ok(Control {
        verb,
        options,
        head_name,
        orig,
        onto,
        done,
        left,
        backup,
        labels,
        updates,
        rewritten,
        waiting,
        chain,
        stop,
        stopped_head,
        stopped_commit,
        pending,
    })
}
