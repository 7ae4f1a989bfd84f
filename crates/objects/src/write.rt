//! Putting an object.

ghost use Rattle.std.specs.Prelude.{◌≡◌, ◌++◌, IfErr, IfOk, Some};
ghost use Rattle.std.specs.Str.{bytes_eq};
ghost use Rattle.object_text.specs.Store.{object_at, object_id};
ghost use Rattle.seq_base.specs.Repository.{object_path};
ghost use Rattle.seq_base.specs.StorePaths.{IsStorePath};
ghost use Rattle.seq_outside.specs.Seen.{Writes};
ghost use Rattle.seq_outside.specs.Store.{StaysElsewhere};
ghost use Rattle.sha1.specs.Sha1.{sha1};
ghost use Rattle.objects.specs.Causes.{IsPutFault, object_cause};
ghost use Rattle.objects.specs.Puts.{HasOther, HasPut, HasTextPut, object_of};

use crate::fault::ObjectFault;
use crate::place::{CONTENT_LIMIT, path_of};
use crate::read::id_of_text;
use object_text::{Kind, object_header};
use seq_base::{Bytes, Id};
use seq_outside::{Store, StoreError};
use sha1::Sha1;
use std::alloc::Global;

/// The id of the object whose text is in two pieces.
fn id_of_pieces(header: &[u8], bytes: &[u8]) -> Id
    ensures { result ≡ sha1 (header.now ++ bytes.now) }
{
    let mut hasher = Sha1::new();
    hasher.update(header);
    hasher.update(bytes);
    Id::from_bytes(hasher.finalize())
}

/// Whether the kept bytes are the two pieces, one behind the other.
fn is_same(kept: &[u8], header: &[u8], bytes: &[u8]) -> bool
    ensures { result ≡ bytes_eq kept.now (header.now ++ bytes.now) }
{
    if kept.len() < header.len() {
        return false;
    }
    let (front, back) = kept.split_at(header.len());
    front == header && back == bytes
}

/// What is answered where other bytes are kept in the file of an id.
fn other_kept(kept: Vec<u8>, id: Id) -> ObjectFault
    ensures { HasOther id kept.items result }
{
    let found = id_of_text(&kept);
    if found != id {
        return ObjectFault::WrongHash { id, found };
    }
    ObjectFault::Collision {
        id,
        kept: Bytes::from_vec(kept),
    }
}

/// Puts the text of an object where no file stands.
fn put_text<S: Store>(
    alloc: Global,
    store: &mut S,
    id: Id,
    path: Vec<u8>,
    text: &[u8],
) -> Result<Id, ObjectFault>
    requires { IsStorePath path.items }
    ensures put { S.told → HasTextPut (S.seen store.old).content id path.items text.now result (S.seen store.new).content }
    ensures id { IfOk result (λ answer. answer ≡ id) }
    ensures err { IfErr result IsPutFault }
    ensures writes { Writes S.told object_cause result (S.seen store.old) (S.seen store.new) }
{
    match store.put(alloc, &path, text) {
        Ok(()) => Ok(id),
        Err(StoreError::Failed) => Err(ObjectFault::Fault),
        Err(StoreError::Blocked) => Err(ObjectFault::Blocked {
            path: Bytes::from_vec(path),
        }),
        Err(StoreError::Memory) => Err(ObjectFault::Memory),
    }
}

/// Puts an object into its file, and answers its id (git-hash-object(1), `-w`). An equal file is left alone. TooLarge where the
/// content passes the limit; where other bytes stand in the file, WrongHash if they have another id, else Collision; Blocked where
/// another file is in its way.
pub fn put<S: Store>(
    alloc: Global,
    store: &mut S,
    kind: Kind,
    bytes: &[u8],
) -> Result<Id, ObjectFault>
    ensures put { S.told → HasPut (S.seen store.old).content (object_of kind bytes.now) result (S.seen store.new).content }
    ensures id { IfOk result (λ id. id ≡ object_id (object_of kind bytes.now)) }
    ensures err { IfErr result IsPutFault }

    // They follow from `put`.
    ensures object { S.told → IfOk result (λ id. object_at (S.seen store.new).content id ≡ Some (object_of kind bytes.now)) }
    ensures elsewhere { S.told → StaysElsewhere
        (object_path (object_id (object_of kind bytes.now)))
        (S.seen store.old).content
        (S.seen store.new).content }
    ensures writes { Writes S.told object_cause result (S.seen store.old) (S.seen store.new) }
{
    if bytes.len() > CONTENT_LIMIT {
        return Err(ObjectFault::TooLarge {
            length: bytes.len() as u64,
        });
    }
    let header = object_header(alloc, kind, bytes.len())?;
    let id = id_of_pieces(&header, bytes);
    let path = path_of(alloc, id)?;
    match store.get(alloc, &path)? {
        None => {
            let mut text = header;
            text.extend_from_slice(bytes)?;
            put_text(alloc, store, id, path, &text)
        }
        Some(kept) => {
            if is_same(&kept, &header, bytes) {
                Ok(id)
            } else {
                Err(other_kept(kept, id))
            }
        }
    }
}
