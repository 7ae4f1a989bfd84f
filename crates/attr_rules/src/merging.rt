//! The attribute `merge` of a path.

ghost use Rattle.std.specs.Prelude.{◌≡◌, IfOk, MatchOption, None, Some};
ghost use Rattle.attr_rules.specs.Deciding.{attribute_of};
ghost use Rattle.attr_rules.specs.Known.{told};
ghost use Rattle.attr_rules.specs.MergeAttrs.{below, LineSays, LinesSay, FileSays, FilesSay, IsMergeAttr};

use crate::attribute::MergeAttr;
use crate::macros::{Known, defines, known_macros, last_told};
use crate::matching::matches;
use crate::rules::{Line, Rules};
use seq_base::{Path, lies_below};
use std::alloc::{AllocError, Global};

/// The path as it is counted from the folder, if it lies below.
fn below<'a>(folder: &[u8], path: &'a [u8]) -> Option<&'a [u8]>
    ensures { MatchOption result (below folder.now path.now ≡ None) (λ rest. below folder.now path.now ≡ Some rest.now) }
{
    if folder.is_empty() {
        return Some(path);
    }
    if lies_below(folder, path) {
        Some(&path[folder.len() + 1..])
    } else {
        None
    }
}

fn line_says(
    alloc: Global,
    known: &[Known],
    path: &[u8],
    line: &Line,
) -> Result<Option<MergeAttr>, AllocError>
    ensures { IfOk result (λ found. LineSays (told known.now) path.now line.now found) }
{
    let pattern = line.pattern.as_slice();
    if defines(pattern) {
        return Ok(None);
    }
    if !matches(alloc, pattern, path)? {
        return Ok(None);
    }
    last_told(alloc, known, line.attributes.as_slice())
}

fn lines_say(
    alloc: Global,
    known: &[Known],
    path: &[u8],
    lines: &[Line],
) -> Result<Option<MergeAttr>, AllocError>
    ensures { IfOk result (λ found. LinesSay (told known.now) path.now lines.now found) }
{
    let mut last = None;
    let mut rest = lines;
    while let [line, later @ ..] = rest {
        last = line_says(alloc, known, path, line)?.or(last);
        rest = later;
    }
    Ok(last)
}

fn file_says(
    alloc: Global,
    known: &[Known],
    path: &[u8],
    file: &Rules,
) -> Result<Option<MergeAttr>, AllocError>
    ensures { IfOk result (λ found. FileSays (told known.now) path.now file.now found) }
{
    match below(file.folder(), path) {
        None => Ok(None),
        Some(rest) => lines_say(alloc, known, rest, file.lines()),
    }
}

fn files_say(
    alloc: Global,
    known: &[Known],
    path: &[u8],
    files: &[Rules],
) -> Result<Option<MergeAttr>, AllocError>
    ensures { IfOk result (λ found. FilesSay (told known.now) path.now files.now found) }
{
    let mut first = None;
    let mut rest = files;
    while let [file, weaker @ ..] = rest {
        let here = file_says(alloc, known, path, file)?;
        first = first.or(here);
        rest = weaker;
    }
    Ok(first)
}

/// The attribute `merge` of a path under rule files, the strongest first, by gitattributes(5). In the first file that
/// mentions it for the path, the last such line decides, and in that line the last mention. A set macro stands for its list,
/// where a macro that is defined earlier may stand. Macros are defined by lines `[attr]NAME ATTRIBUTES` of the files whose
/// folder is empty. Earlier goes by `binary`, which is `-diff -merge -text`, then those files, the weakest first, each from
/// its top; of several definitions of one name only the last counts.
pub fn merge_attr(alloc: Global, files: &[Rules], path: &Path) -> Result<MergeAttr, AllocError>
    ensures said { IfOk result (λ attribute. IsMergeAttr files.now path.now attribute) }

    // It follows from `said`: no other attribute is said.
    ensures is { IfOk result (λ attribute. attribute ≡ attribute_of files.now path.now) }
{
    let known = known_macros(alloc, files)?;
    let found = files_say(alloc, known.as_slice(), path.bytes(), files)?;
    Ok(found.unwrap_or(MergeAttr::Unspecified))
}
