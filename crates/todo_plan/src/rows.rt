//! The commits that were picked so far.

ghost use Rattle.std.specs.Prelude.{◌≡◌, ◌<◌, ◌∷◌, ◌++◌, [], IfOk, IfSome, OnOk, length, nat_le};
ghost use Rattle.todo_plan.specs.Autosquash.{begins_with, first_row, or_else, row_of, target, with_digits, with_start, with_subject};

use merge_base::Node;
use seq_base::Bytes;
use std::alloc::{AllocError, Global};
use std::collections::BTreeMap;
use std::marker::Model;

/// The commits that were picked, with their hex digits and subjects. Contracts see the list of them.
#[derive(Drop)]
pub(crate) struct Rows {
    rows: Vec<(Bytes, Bytes)>,
    /// The first with each subject.
    subjects: BTreeMap<Bytes, usize>,
}

impl Model for Rows {
    ghost use Rattle.std.specs.Prelude.{List};
    ghost use Rattle.todo_plan.specs.Autosquash.{Row};
    ghost use Rattle.todo_plan.specs.Shape.{AreRows};

    ghost Value = { List Row };

    ghost view = { λ r. r.rows.items };

    ghost invariant = { λ r. AreRows r.rows.items r.subjects };
}

fn bytes_of(alloc: Global, bytes: &[u8]) -> Result<Bytes, AllocError>
    ensures { IfOk result (λ copy. copy ≡ bytes.now) }
{
    Ok(Bytes::from_vec(Vec::from_slice(alloc, bytes)?))
}

fn digits_begin(row: &(Bytes, Bytes), text: &[u8]) -> bool
    ensures { result ≡ begins_with row.now.0 text.now }
{
    row.0.as_slice().starts_with(text)
}

fn subject_begins(row: &(Bytes, Bytes), text: &[u8]) -> bool
    ensures { result ≡ begins_with row.now.1 text.now }
{
    row.1.as_slice().starts_with(text)
}

/// Whether a text is long enough to stand for digits.
fn is_long(text: &[u8]) -> bool
    ensures { result ≡ nat_le 4 (length text.now) }
{
    4 <= text.len()
}

fn first_digits(rows: &[(Bytes, Bytes)], text: &[u8]) -> Option<usize>
    ensures { result ≡ first_row (λ r. begins_with r.0 text.now) rows.now }
{
    rows.iter().position(|row| digits_begin(row, text))
}

fn with_digits(rows: &[(Bytes, Bytes)], text: &[u8]) -> Option<usize>
    ensures { result ≡ with_digits rows.now text.now }
{
    if is_long(text) {
        return first_digits(rows, text);
    }
    None
}

fn with_start(rows: &[(Bytes, Bytes)], text: &[u8]) -> Option<usize>
    ensures { result ≡ with_start rows.now text.now }
{
    rows.iter().position(|row| subject_begins(row, text))
}

/// The first row whose digits begin with a text, else the first whose subject does.
fn with_front(rows: &[(Bytes, Bytes)], text: &[u8]) -> Option<usize>
    ensures { result ≡ or_else (with_digits rows.now text.now) (with_start rows.now text.now) }
{
    match with_digits(rows, text) {
        Some(number) => Some(number),
        None => with_start(rows, text),
    }
}

impl Rows {
    pub fn new(alloc: Global) -> Rows
        ensures { result ≡ [] }
    {
        Rows {
            rows: Vec::new(alloc),
            subjects: BTreeMap::new(alloc),
        }
    }

    pub fn len(&self) -> usize
        ensures { result ≡ length self.now }
    {
        self.rows.len()
    }

    /// Adds a row. The key is the subject once more.
    fn put(&mut self, hex: Bytes, subject: Bytes, key: Bytes) -> Result<(), AllocError>
        requires { key ≡ subject }
        ensures { OnOk result (self.new ≡ self.old ++ (hex, subject) ∷ []) }
    {
        let number = self.rows.len();
        let found = self.first(&key);
        let is_known = found.is_some();
        self.rows.push((hex, subject))?;
        if is_known {
            return Ok(());
        }
        if self.subjects.insert(key, number).is_err() {
            self.rows.pop();
            return Err(AllocError);
        }
        Ok(())
    }

    pub fn push(&mut self, alloc: Global, node: &Node) -> Result<(), AllocError>
        ensures { OnOk result (self.new ≡ self.old ++ row_of node.now ∷ []) }
    {
        let hex = Bytes::from_vec(node.id.hex(alloc)?);
        let subject = bytes_of(alloc, node.subject.as_slice())?;
        let key = bytes_of(alloc, node.subject.as_slice())?;
        self.put(hex, subject, key)
    }

    /// The first row with the subject.
    fn first(&self, subject: &Bytes) -> Option<usize>
        ensures { result ≡ with_subject self.now subject.now }
    {
        self.subjects.get(subject).copied()
    }

    /// The row that a text is meant for.
    pub fn target(&self, alloc: Global, text: &[u8]) -> Result<Option<usize>, AllocError>
        ensures found { IfOk result (λ found. found ≡ target self.now text.now) }
        ensures within { IfOk result (λ found. IfSome found (λ number. number < length self.now)) }
    {
        let key = bytes_of(alloc, text)?;
        match self.first(&key) {
            Some(number) => Ok(Some(number)),
            None => Ok(with_front(&self.rows, text)),
        }
    }
}
