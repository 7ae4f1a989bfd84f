//! Reading an index.

ghost use Rattle.std.specs.Prelude.{◌≡◌, ◌≢◌, ◌≤◌, [], Err, IfErr, IfOk, List, Ok, length};
ghost use Rattle.index_file.specs.declared.entry.IndexEntry.{IndexEntry as EntryValue};
ghost use Rattle.index_file.specs.declared.fault.IndexFault.{IndexFault as Fault};
ghost use Rattle.index_file.specs.Faults.{IsFirstFault, IsFirstFaultOrMemory};
ghost use Rattle.index_file.specs.Reading.{Gives, entry_of as entry_with, whole_at, entry_in, entry_at, entries_at, header_at, extension_at, trailer_at, is_trailer, index_of};
ghost use Rattle.index_file.specs.Spelling.{flags_in, IsWhole, Spells};

use crate::entry::IndexEntry;
use crate::fault::IndexFault;
use crate::fields::{are_zero, front_of, mode_numbered, number_of, u32_of};
use crate::order::append;
use seq_base::{Id, Mode, Path, PathFault};
use sha1::Sha1;
use std::alloc::Global;

/// How many entries there are.
#[tactic(auto, unfolding(crate::specs::Reading::header_at))]
fn header_of(bytes: &[u8]) -> Result<(u32, &[u8]), IndexFault>
    ensures { Gives (λ x. (x.0, x.1.now)) result (header_at bytes.now) }
{
    if !bytes.starts_with(b"DIRC") {
        return Err(IndexFault::Magic);
    }
    let (version, rest) = u32_of(&bytes[4..])?;
    if version != 2 {
        return Err(IndexFault::Version {
            n: u64::from(version),
        });
    }
    u32_of(rest)
}

/// What entry n has where its path cannot be made.
fn name_fault(n: u64, fault: PathFault) -> IndexFault
    ensures memory { fault ≡ PathFault.Memory → result ≡ IndexFault.Memory }
    ensures other { fault ≢ PathFault.Memory → result ≡ IndexFault.Name n }
{
    match fault {
        PathFault::Memory => IndexFault::Memory,
        _ => IndexFault::Name { n },
    }
}

/// The entry with these fields, or entry n is bad.
#[tactic(auto, unfolding(crate::specs::Reading::entry_of))]
fn entry_with_fields(
    alloc: Global,
    n: u64,
    mode: Option<Mode>,
    id: [u8; 20],
    flags: u16,
    path: &[u8],
    padding: &[u8],
) -> Result<IndexEntry, IndexFault>
    ensures { Gives (λ e. e) result (entry_with n mode id flags path.now padding.now) }
{
    let Some(mode) = mode else {
        return Err(IndexFault::Name { n });
    };
    if flags / 16384 % 2 != 0 || !are_zero(padding) {
        return Err(IndexFault::Name { n });
    }
    match Path::new(alloc, path) {
        Ok(path) => Ok(IndexEntry {
            path,
            stage: (flags / 4096 % 4) as u8,
            mode,
            id: Id::from_bytes(id),
        }),
        Err(fault) => Err(name_fault(n, fault)),
    }
}

/// The flags of an entry.
fn flags_of(bytes: &[u8]) -> u16
    requires { 62 ≤ length bytes.now }
    ensures { result ≡ flags_in bytes.now }
{
    u16::from_be_bytes([bytes[60], bytes[61]])
}

/// The bytes of an entry, and those behind them.
#[tactic(auto, unfolding(crate::specs::Reading::whole_at))]
fn whole_of(bytes: &[u8]) -> Result<(&[u8], &[u8]), IndexFault>
    ensures { Gives (λ x. (x.0.now, x.1.now)) result (whole_at bytes.now) }
{
    if bytes.len() < 62 {
        return Err(IndexFault::Count);
    }
    let len = 62 + usize::from(flags_of(bytes) % 4096);
    front_of(len + 8 - len % 8, bytes)
}

/// Entry n, from its bytes.
#[tactic(auto, unfolding(crate::specs::Reading::entry_in))]
fn entry_in_text(alloc: Global, n: u64, text: &[u8]) -> Result<IndexEntry, IndexFault>
    requires { IsWhole text.now }
    ensures { Gives (λ e. e) result (entry_in n text.now) }
{
    let mode = number_of(&text[24..28]);
    let mut id = [0; 20];
    id.copy_from_slice(&text[40..60]);
    let flags = flags_of(text);
    let end = 62 + usize::from(flags % 4096);
    entry_with_fields(
        alloc,
        n,
        mode_numbered(mode),
        id,
        flags,
        &text[62..end],
        &text[end..],
    )
}

/// Entry n, from 1.
#[tactic(auto, unfolding(crate::specs::Reading::entry_at))]
fn entry_of(alloc: Global, n: u64, bytes: &[u8]) -> Result<(IndexEntry, &[u8]), IndexFault>
    ensures { Gives (λ x. (x.0, x.1.now)) result (entry_at n bytes.now) }
{
    let (text, rest) = whole_of(bytes)?;
    let entry = entry_in_text(alloc, n, text)?;
    Ok((entry, rest))
}

/// So many entries.
fn entries_of(
    alloc: Global,
    count: u32,
    bytes: &[u8],
) -> Result<(Vec<IndexEntry>, &[u8]), IndexFault>
    ensures { Gives (λ x. (x.0.items, x.1.now)) result (entries_at count [] bytes.now) }
{
    let mut entries = Vec::new(alloc);
    let mut files = vec![in alloc; false]?;
    let mut rest = bytes;
    for i in 0..count {
        match entry_of(alloc, u64::from(i) + 1, rest) {
            Ok(found) => {
                append(&mut entries, &mut files, found.0)?;
                rest = found.1;
            }
            Err(fault) => return Err(fault),
        }
    }
    Ok((entries, rest))
}

/// What stands behind an extension that may be skipped.
#[tactic(auto, unfolding(crate::specs::Reading::extension_at))]
fn skip_extension(bytes: &[u8]) -> Result<&[u8], IndexFault>
    ensures { Gives (λ x. x.now) result (extension_at bytes.now) }
{
    if bytes.len() < 28 {
        return Err(IndexFault::Count);
    }
    let tag = [bytes[0], bytes[1], bytes[2], bytes[3]];
    if !bytes[0].is_ascii_uppercase() {
        return Err(IndexFault::Extension { tag });
    }
    let (len, _) = u32_of(&bytes[4..])?;
    let end = 8 + len as usize;
    if bytes.len() < end + 20 {
        return Err(IndexFault::Count);
    }
    Ok(&bytes[end..])
}

/// The last twenty bytes, behind the extensions.
fn trailer_of(bytes: &[u8]) -> Result<&[u8], IndexFault>
    ensures { Gives (λ x. x.now) result (trailer_at (length bytes.now) bytes.now) }
{
    let mut rest = bytes;
    while rest.len() != 20 {
        rest = skip_extension(rest)?;
    }
    Ok(rest)
}

fn is_hash(trailer: &[u8], body: &[u8]) -> bool
    ensures { result ≡ is_trailer body.now trailer.now }
{
    let hash = Sha1::digest(body);
    trailer == hash.as_slice() || are_zero(trailer)
}

/// The entries that the bytes spell.
#[tactic(auto, unfolding(crate::specs::Reading::index_of))]
fn read_index(alloc: Global, bytes: &[u8]) -> Result<Vec<IndexEntry>, IndexFault>
    ensures { Gives (λ v. v.items) result (index_of bytes.now) }
{
    let (count, rest) = header_of(bytes)?;
    let (entries, rest) = entries_of(alloc, count, rest)?;
    let trailer = trailer_of(rest)?;
    if is_hash(trailer, &bytes[..bytes.len().saturating_sub(20)]) {
        Ok(entries)
    } else {
        Err(IndexFault::Hash)
    }
}

/// The entries of an index file (gitformat-index(5)), in order, or its first fault.
///
/// Stat words, the assume-valid bit and the content of extensions are not looked at. A trailer of zero is accepted.
pub fn parse_index(alloc: Global, bytes: &[u8]) -> Result<Vec<IndexEntry>, IndexFault>
    // What is read is spelled so.
    ensures spelled { IfOk result (λ entries. Spells entries.items bytes.now) }
    // What is spelled so is read, unless memory runs out.
    ensures read { (es : List EntryValue) → Spells es bytes.now → Gives (λ v. v.items) result (Ok es) }
    // The fault is the first, and the first fault is answered, unless memory runs out.
    ensures fault { IfErr result (λ fault. IsFirstFaultOrMemory bytes.now fault) }
    ensures refused { (fault : Fault) → IsFirstFault bytes.now fault → Gives (λ v. v.items) result (Err fault) }
    // Both in one: what reading from the left gives.
    ensures exact { Gives (λ v. v.items) result (index_of bytes.now) }
{
    read_index(alloc, bytes)
}
