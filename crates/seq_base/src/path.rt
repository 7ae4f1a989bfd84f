//! Paths below the root of a worktree.

ghost use Rattle.std.specs.Prelude.{◌≡◌, ◌==◌, ◌++◌, ◌∷◌, IfOk, IfErr, MatchResult, codes, map, not, true};
ghost use Rattle.std.proofs.Common.{rules};
ghost use Rattle.std.specs.Char.{to_ascii_lowercase};
ghost use Rattle.std.specs.Cmp.{partial_order_from_own_ties};
ghost use Rattle.std.specs.Cmp.Lexicographic.{slice_cmp};
ghost use Rattle.std.specs.Cmp.Rules.{comparing};
ghost use Rattle.std.specs.List.{list_all};
ghost use Rattle.std.specs.Ordering.{nat_cmp, as_partial_cmp};
ghost use Rattle.std.specs.Str.{bytes_eq};
ghost use Rattle.seq_base.specs.PathMaps.{is_less};
ghost use Rattle.seq_base.specs.Paths.{is_special, is_part, parts, first_bad, IsPath, IsPathFault, IsPathFaultOrMemory};
ghost use Rattle.seq_base.specs.StorePaths.{IsStorePath};

use crate::store_path::is_text;
use std::alloc::{AllocError, Global};
use std::cmp::Ordering;
use std::marker::Model;
use thiserror::Error;

/// Why bytes are no path. The faults are looked for in this order.
#[derive(Clone, Copy, Debug, PartialEq, Eq, Drop, Error)]
pub enum PathFault {
    #[error("a path is not empty")]
    Empty,
    /// It has more than 4,095 bytes.
    #[error("a path has at most 4095 bytes, and this has {length}")]
    TooLong { length: u64 },
    /// How many bytes are text before the first that is none.
    #[error("byte {at} is no UTF-8")]
    NotUtf8 { at: u64 },
    /// Where the first part begins that is empty, `.`, `..`, `.git` in any ASCII case, or has a NUL.
    #[error("the part at byte {at} may not stand in a path")]
    BadPart { at: u64 },
    #[error("out of memory")]
    Memory,
}

/// Whether a path comes before another, in the order of their bytes.
pub fn comes_before(a: &[u8], b: &[u8]) -> bool
    ensures { result ≡ is_less a.now b.now }
{
    match a.cmp(b) {
        Ordering::Less => true,
        Ordering::Equal | Ordering::Greater => false,
    }
}

fn is_dot_git(part: &[u8]) -> bool
    ensures { result ≡ bytes_eq (codes ".git") (map to_ascii_lowercase part.now) }
{
    part.eq_ignore_ascii_case(b".git")
}

fn is_special_part(part: &[u8]) -> bool
    ensures { result ≡ is_special part.now }
{
    part == b".".as_slice() || part == b"..".as_slice() || is_dot_git(part)
}

fn has_no_nul(part: &[u8]) -> bool
    ensures { result ≡ list_all (λ b. not (b == 0)) part.now }
{
    part.iter().all(|b| *b != 0)
}

fn is_good_part(part: &[u8]) -> bool
    ensures { result ≡ is_part part.now }
{
    !part.is_empty() && has_no_nul(part) && !is_special_part(part)
}

/// Where the first part begins that may not stand in a path.
fn bad_part(bytes: &[u8]) -> Option<usize>
    ensures { result ≡ first_bad 0 (parts bytes.now) }
{
    let mut start = 0;
    for (i, b) in bytes.iter().enumerate() {
        if *b == b'/' {
            if !is_good_part(&bytes[start..i]) {
                return Some(start);
            }
            start = i + 1;
        }
    }
    if is_good_part(&bytes[start..]) {
        None
    } else {
        Some(start)
    }
}

/// Whether a folder's path, a slash and a name are a path: only the name is looked at.
fn is_path_below(folder: &[u8], name: &[u8]) -> bool
    requires { IsPath folder.now }
    ensures { result ≡ true → IsPath (folder.now ++ 47 ∷ name.now) }
{
    if folder.len() + name.len() >= 4095 || !is_text(name) {
        return false;
    }
    match bad_part(name) {
        None => true,
        Some(_) => false,
    }
}

fn joined(alloc: Global, folder: &[u8], name: &[u8]) -> Result<Vec<u8>, AllocError>
    ensures { IfOk result (λ path. path.items ≡ folder.now ++ 47 ∷ name.now) }
{
    let mut path = Vec::with_capacity(alloc, folder.len() + 1 + name.len())?;
    path.extend_from_slice(folder)?;
    path.push(b'/')?;
    path.extend_from_slice(name)?;
    Ok(path)
}

/// A path below the root of a worktree: text of 1 to 4,095 bytes, whose parts between `/` are not empty and lead neither
/// into `.git` nor outside. Contracts see its bytes. Paths compare as their bytes do.
#[derive(Clone, Debug, Drop)]
pub struct Path {
    held: Vec<u8>,
}

impl Model for Path {
    ghost use Rattle.std.specs.Prelude.{List, ℕ};
    ghost use Rattle.seq_base.specs.Paths.{IsPath};

    ghost Value = { List ℕ };

    ghost view = { λ p. p.held.items };

    ghost invariant = { λ p. IsPath p.held.items };
}

impl Path {
    /// Whether the bytes are a path, or the first fault.
    pub fn check(bytes: &[u8]) -> Result<(), PathFault>
        ensures { MatchResult result (λ _. IsPath bytes.now) (IsPathFault bytes.now) }
    {
        if bytes.is_empty() {
            return Err(PathFault::Empty);
        }
        if bytes.len() > 4095 {
            return Err(PathFault::TooLong {
                length: bytes.len() as u64,
            });
        }
        if let Err(e) = str::from_utf8(bytes) {
            return Err(PathFault::NotUtf8 {
                at: e.valid_up_to() as u64,
            });
        }
        match bad_part(bytes) {
            None => Ok(()),
            Some(at) => Err(PathFault::BadPart { at: at as u64 }),
        }
    }

    /// The path with these bytes, or the first fault.
    pub fn new(alloc: Global, bytes: &[u8]) -> Result<Path, PathFault>
        ensures ok { IfOk result (λ path. (path ≡ bytes.now) × IsPath bytes.now) }
        ensures fault { IfErr result (IsPathFaultOrMemory bytes.now) }
    {
        Path::check(bytes)?;
        match Vec::from_slice(alloc, bytes) {
            Ok(held) => Ok(Path { held }),
            Err(_) => Err(PathFault::Memory),
        }
    }

    /// The path of what a folder holds under a name, or the first fault of the two with a slash between. Where there is none, the
    /// folder's bytes are copied, and not looked at again.
    pub fn below(alloc: Global, folder: &[u8], name: &[u8]) -> Result<Path, PathFault>
        requires { IsPath folder.now }
        ensures ok { IfOk result (λ path. (path ≡ folder.now ++ 47 ∷ name.now) × IsPath (folder.now ++ 47 ∷ name.now)) }
        ensures fault { IfErr result (IsPathFaultOrMemory (folder.now ++ 47 ∷ name.now)) }
    {
        let Ok(held) = joined(alloc, folder, name) else {
            return Err(PathFault::Memory);
        };
        if is_path_below(folder, name) {
            return Ok(Path { held });
        }
        Path::new(alloc, held.as_slice())
    }

    /// What `clone` makes.
    pub fn copy(&self) -> Result<Path, AllocError>
        ensures { IfOk result (λ copy. copy ≡ self.now) }
    {
        self.clone()
    }

    #[tactic(auto, using(crate::proofs::StorePathLemmas::path_is_store_path))]
    pub fn bytes(&self) -> &[u8]
        ensures same { result.now ≡ self.now }
        ensures path { IsPath self.now }
        ensures store_path { IsStorePath self.now }
    {
        self.held.as_slice()
    }
}

impl PartialEq for Path {
    ghost eq = { λ a b. bytes_eq a b };

    ghost laws = { Prim.search (comparing, rules) };

    fn eq(&self, other: &Path) -> bool {
        self.held.as_slice() == other.held.as_slice()
    }
}

impl Eq for Path {
    ghost laws = { Prim.search (comparing, rules) };
}

impl Ord for Path {
    ghost cmp = { λ a b. slice_cmp nat_cmp a b };

    ghost total = { Prim.search (comparing, rules) };

    ghost matches_partial_cmp = { Prim.search (comparing, rules) };

    ghost matches_eq = { Prim.search (comparing, rules) };

    fn cmp(&self, other: &Path) -> Ordering {
        self.held.as_slice().cmp(other.held.as_slice())
    }
}

impl PartialOrd for Path {
    ghost partial_cmp = { as_partial_cmp (λ a b. slice_cmp nat_cmp a b) };

    ghost laws = { partial_order_from_own_ties (Prim.search (comparing, rules)) (Prim.search (comparing, rules)) };

    fn partial_cmp(&self, other: &Path) -> Option<Ordering> {
        Some(self.cmp(other))
    }
}
