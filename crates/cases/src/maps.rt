//! Maps from paths, in cases and in answers.

ghost use Rattle.std.specs.Prelude.{◌≢◌, IfOk};
ghost use Rattle.seq_base.specs.declared.mode.Mode.TheVariants.{Folder};

use crate::answer::Answer;
use crate::case::Case;
use crate::fault::CaseFault;
use crate::fields::Fields;
use seq_base::{Entry, InsertFault, Mode, Path, PathMap};

/// An entry that a map may hold.
fn map_entry(fields: &mut Fields<'_>) -> Result<Entry, CaseFault>
    ensures { IfOk result (λ entry. entry.mode ≢ Folder) }
{
    let entry = fields.entry()?;
    match entry.mode {
        Mode::Folder => Err(CaseFault::Value),
        Mode::File | Mode::Exec | Mode::Link | Mode::Gitlink => Ok(entry),
    }
}

fn insert(map: &mut PathMap, path: Path, entry: Entry, out: &mut Answer) -> Result<(), CaseFault>
    requires { entry.mode ≢ Folder }
{
    match map.insert(path, entry) {
        Ok(()) => {}
        Err(InsertFault::Clash { other }) => {
            out.word(b"clash")?;
            out.bytes(other.bytes())?;
        }
        Err(InsertFault::Memory) => return Err(CaseFault::Memory),
    }
    Ok(())
}

/// As many entries, each a path, a mode and an id: the map of them. The answer has each path that clashes.
pub fn map_of(case: &mut Case<'_>, count: usize) -> Result<PathMap, CaseFault> {
    let mut map = PathMap::new(case.alloc);
    for _ in 0..count {
        let path = case.fields.path()?;
        let entry = map_entry(&mut case.fields)?;
        insert(&mut map, path, entry, &mut case.out)?;
    }
    Ok(map)
}

/// The entries of a map, each a path, a mode and an id.
pub fn put_map(out: &mut Answer, map: &PathMap) -> Result<(), CaseFault> {
    for n in 0..map.len() {
        if let Some((path, entry)) = map.at(n) {
            out.bytes(path.bytes())?;
            out.entry(&entry)?;
        }
    }
    Ok(())
}
