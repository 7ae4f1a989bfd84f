//! Writing an index.

ghost use Rattle.std.specs.Prelude.{◌≡◌, ◌+◌, ◌<◌, ◌^◌, ◌++◌, length, replicate, OnOk, IfOk};
ghost use Rattle.seq_base.specs.Paths.{IsPath};
ghost use Rattle.index_file.specs.Entries.{IsStaged, IsIndex};
ghost use Rattle.index_file.specs.Spelling.{IsRow, Spells, entry_text, header_text, no_stat, index_text as text_of_index};

use crate::entry::IndexEntry;
use sha1::Sha1;
use std::alloc::{AllocError, Global};

fn put_zeros(out: &mut Vec<u8>, n: usize) -> Result<(), AllocError>
    requires { length out.old.items + n < 2 ^ 64 }
    ensures { OnOk result (out.new.items ≡ out.old.items ++ replicate n 0) }
{
    out.resize(out.len() + n, 0)
}

fn put_entry(out: &mut Vec<u8>, entry: &IndexEntry) -> Result<(), AllocError>
    requires { IsStaged entry.now }
    ensures text { OnOk result (out.new.items ≡ out.old.items ++ entry_text entry.now) }
    ensures row { OnOk result (IsRow (no_stat, entry.now)) }
{
    let path = entry.path.bytes();
    put_zeros(out, 24)?;
    out.extend_from_slice(&entry.mode.number().to_be_bytes())?;
    put_zeros(out, 12)?;
    out.extend_from_slice(entry.id.bytes())?;
    let flags = u16::from(entry.stage) * 4096 + path.len() as u16;
    out.extend_from_slice(&flags.to_be_bytes())?;
    out.extend_from_slice(path)?;
    put_zeros(out, 8 - (62 + path.len()) % 8)
}

fn put_header(out: &mut Vec<u8>, count: u32) -> Result<(), AllocError>
    ensures { OnOk result (out.new.items ≡ out.old.items ++ header_text count) }
{
    out.extend_from_slice(b"DIRC")?;
    out.extend_from_slice(&2u32.to_be_bytes())?;
    out.extend_from_slice(&count.to_be_bytes())
}

/// The one text of the entries that is written: stat words of 0 but the mode, no extension, and the SHA-1 of all before it
/// (gitformat-index(5)).
pub fn index_text(alloc: Global, entries: &[IndexEntry]) -> Result<Vec<u8>, AllocError>
    requires { IsIndex entries.now }
    ensures text { IfOk result (λ text. text.items ≡ text_of_index entries.now) }
    // So reading gives the entries back.
    ensures spells { IfOk result (λ text. Spells entries.now text.items) }
{
    let mut out = Vec::new(alloc);
    put_header(&mut out, entries.len() as u32)?;
    for entry in entries {
        put_entry(&mut out, entry)?;
    }
    let hash = Sha1::digest(&out);
    out.extend_from_slice(&hash)?;
    Ok(out)
}
