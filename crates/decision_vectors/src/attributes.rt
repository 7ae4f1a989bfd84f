//! Cases of `attr_rules`.

use attr_rules::{MergeAttr, matches, merge_attr, parse_rules};
use cases::{Answer, Case, CaseFault};
use std::alloc::AllocError;

/// PATTERN PATH
pub fn fits(case: &mut Case<'_>) -> Result<(), CaseFault> {
    let pattern = case.fields.bytes()?;
    let path = case.fields.bytes()?;
    case.out.yes_or_no(matches(case.alloc, pattern, path)?)?;
    Ok(())
}

/// TEXT: pattern and attributes of each line.
pub fn rules(case: &mut Case<'_>) -> Result<(), CaseFault> {
    let rules = parse_rules(case.alloc, case.fields.bytes()?, b"")?;
    case.out.counted(b"lines", rules.lines().len() as u64)?;
    for line in rules.lines() {
        case.out.bytes(line.pattern.as_slice())?;
        case.out.bytes(line.attributes.as_slice())?;
    }
    Ok(())
}

fn put_attribute(out: &mut Answer, attribute: &MergeAttr) -> Result<(), AllocError> {
    match attribute {
        MergeAttr::Unspecified => out.word(b"unspecified"),
        MergeAttr::Set => out.word(b"set"),
        MergeAttr::Unset => out.word(b"unset"),
        MergeAttr::Named(name) => out.named(b"named", name.as_slice()),
    }
}

/// A path, and the rule files, the strongest first, each a folder and a text.
pub fn merge(case: &mut Case<'_>) -> Result<(), CaseFault> {
    let path = case.fields.path()?;
    let mut files = Vec::new(case.alloc);
    for _ in 0..case.fields.len() / 2 {
        let folder = case.fields.bytes()?;
        files.push(parse_rules(case.alloc, case.fields.bytes()?, folder)?)?;
    }
    put_attribute(&mut case.out, &merge_attr(case.alloc, &files, &path)?)?;
    Ok(())
}
