//! The files that a driver's job is handed.

ghost use Rattle.std.specs.Prelude.{◌≡◌, ◌++◌, IfOk, OnOk, decimal};
ghost use Rattle.seq_base.specs.StorePaths.{IsStorePath};
ghost use Rattle.driver_pool.specs.Files.{ending as ending_of, file_of};

use itoa::Buffer;
use std::alloc::{AllocError, Global};

/// The versions of a file that are merged.
#[derive(Clone, Copy, Debug, PartialEq, Eq)]
pub enum Version {
    /// That of the common ancestor.
    Base,
    /// The current one, which the driver replaces.
    Ours,
    /// That of the other side.
    Theirs,
}

fn ending(version: Version) -> &'static [u8]
    ensures { result.now ≡ ending_of version }
{
    match version {
        Version::Base => b".base".as_slice(),
        Version::Ours => b".ours".as_slice(),
        Version::Theirs => b".theirs".as_slice(),
    }
}

fn push_numbered(
    text: &mut Vec<u8>,
    front: &[u8],
    number: u64,
    end: &[u8],
) -> Result<(), AllocError>
    ensures { OnOk result (text.new.items ≡ text.old.items ++ (front.now ++ decimal number ++ end.now)) }
{
    let mut buffer = Buffer::new();
    text.extend_from_slice(front)?;
    text.extend_from_slice(buffer.format(number).as_bytes())?;
    text.extend_from_slice(end)
}

/// Adds the path of a job's file, by the job's number.
#[tactic(auto, unfolding(crate::specs::Files::file_of))]
pub fn push_file_path(text: &mut Vec<u8>, number: u64, version: Version) -> Result<(), AllocError>
    ensures { OnOk result (text.new.items ≡ text.old.items ++ file_of number version) }
{
    push_numbered(text, b".git/merge-driver/", number, ending(version))
}

#[tactic(auto, using(crate::proofs::FilePaths::file_stored))]
pub fn file_path(alloc: Global, number: u64, version: Version) -> Result<Vec<u8>, AllocError>
    ensures path { IfOk result (λ path. path.items ≡ file_of number version) }
    ensures stored { IsStorePath (file_of number version) }
{
    let mut path = Vec::new(alloc);
    push_file_path(&mut path, number, version)?;
    Ok(path)
}
