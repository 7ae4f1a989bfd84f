//! Macros, and what setting one says of the attribute `merge`.

ghost use Rattle.std.specs.Prelude.{◌≡◌, [], ◌∷◌, IfOk, reverse};
ghost use Rattle.std.specs.List.{filter_map};
ghost use Rattle.std.specs.Option.{option_or};
ghost use Rattle.attr_rules.specs.Attributes.{macro_of, macros_of, own, defines, is_named_in, last_said};
ghost use Rattle.attr_rules.specs.Known.{told, known_of, AddsAll};

use crate::attribute::{MergeAttr, is_set, own};
use crate::cut::first_word;
use crate::rules::{Line, Rules, bytes_of};
use seq_base::Bytes;
use std::alloc::{AllocError, Global};

/// A macro: its name, and the text of its attributes.
#[derive(Debug, Drop)]
pub struct Macro {
    pub name: Bytes,
    pub attributes: Bytes,
}

/// What setting a macro says by its list.
#[derive(Debug, Drop)]
pub struct Known {
    pub name: Bytes,
    pub says: Option<MergeAttr>,
}

/// Whether a line defines a macro, by what stands in place of its pattern.
pub fn defines(pattern: &[u8]) -> bool
    ensures { result ≡ defines pattern.now }
{
    pattern.starts_with(b"[attr]") && pattern.len() > 6
}

fn macro_of(alloc: Global, line: &Line) -> Result<Option<Macro>, AllocError>
    ensures { IfOk result (λ found. found ≡ macro_of line.now) }
{
    let pattern = line.pattern.as_slice();
    if !defines(pattern) {
        return Ok(None);
    }
    Ok(Some(Macro {
        name: bytes_of(alloc, &pattern[6..])?,
        attributes: bytes_of(alloc, line.attributes.as_slice())?,
    }))
}

fn is_named_in(macros: &[Macro], name: &[u8]) -> bool
    ensures { result ≡ is_named_in macros.now name.now }
{
    macros.iter().any(|m| m.name.as_slice() == name)
}

/// Adds a definition, unless a later one has its name.
fn add_macro(macros: &mut Vec<Macro>, earlier: Macro) -> Result<(), AllocError>
    ensures { IfOk result (λ _. AddsAll macros.old.items (earlier ∷ []) macros.new.items) }
{
    if !is_named_in(macros.as_slice(), earlier.name.as_slice()) {
        macros.push(earlier)?;
    }
    Ok(())
}

fn add_macros(alloc: Global, macros: &mut Vec<Macro>, lines: &[Line]) -> Result<(), AllocError>
    ensures { IfOk result (λ _. AddsAll macros.old.items (filter_map macro_of (reverse lines.now)) macros.new.items) }
{
    let mut left = lines.len();
    while left > 0 {
        left -= 1;
        if let Some(found) = macro_of(alloc, &lines[left])? {
            add_macro(macros, found)?;
        }
    }
    Ok(())
}

/// The macros that are defined, the latest first.
fn macros_of(alloc: Global, files: &[Rules]) -> Result<Vec<Macro>, AllocError>
    ensures { IfOk result (λ v. v.items ≡ macros_of files.now) }
{
    let mut macros = Vec::new(alloc);
    let mut rest = files;
    while let [file, weaker @ ..] = rest {
        if file.folder().is_empty() {
            add_macros(alloc, &mut macros, file.lines())?;
        }
        rest = weaker;
    }
    let binary = Macro {
        name: bytes_of(alloc, b"binary")?,
        attributes: bytes_of(alloc, b"-diff -merge -text")?,
    };
    add_macro(&mut macros, binary)?;
    Ok(macros)
}

/// What the list of a macro says, else what the word says by itself.
fn with_own(
    alloc: Global,
    says: &Option<MergeAttr>,
    word: &[u8],
) -> Result<Option<MergeAttr>, AllocError>
    ensures { IfOk result (λ said. said ≡ option_or says.now (own word.now)) }
{
    match says {
        Some(attribute) => Ok(Some(attribute.clone()?)),
        None => own(alloc, word),
    }
}

/// What a word says, where setting these macros says this.
fn told(alloc: Global, known: &[Known], word: &[u8]) -> Result<Option<MergeAttr>, AllocError>
    ensures { IfOk result (λ said. said ≡ told known.now word.now) }
{
    let is_set = is_set(word);
    for one in known {
        if is_set && one.name.as_slice() == word {
            return with_own(alloc, &one.says, word);
        }
    }
    own(alloc, word)
}

/// What the last of the words says that says anything.
pub fn last_told(
    alloc: Global,
    known: &[Known],
    text: &[u8],
) -> Result<Option<MergeAttr>, AllocError>
    ensures { IfOk result (λ said. said ≡ last_said (told known.now) text.now) }
{
    let mut last = None;
    let mut rest = text;
    while !rest.is_empty() {
        let (word, behind) = first_word(rest);
        last = told(alloc, known, word)?.or(last);
        rest = behind;
    }
    Ok(last)
}

/// What setting each macro says, the latest first.
pub fn known_macros(alloc: Global, files: &[Rules]) -> Result<Vec<Known>, AllocError>
    ensures { IfOk result (λ v. v.items ≡ known_of (macros_of files.now)) }
{
    let macros = macros_of(alloc, files)?;
    let mut known = Vec::new(alloc);
    let mut rest = macros.as_slice();
    while let [later @ .., earliest] = rest {
        let says = last_told(alloc, known.as_slice(), earliest.attributes.as_slice())?;
        let name = bytes_of(alloc, earliest.name.as_slice())?;
        known.insert(0, Known { name, says })?;
        rest = later;
    }
    Ok(known)
}
