//! Files as blobs.

ghost use Rattle.std.specs.Prelude.{◌≡◌, IsErrOf};
ghost use Rattle.std.specs.Str.{bytes_eq};
ghost use Rattle.seq_outside.specs.Halts.{Gives, halt_cause};
ghost use Rattle.seq_outside.specs.Seen.{Reads};
ghost use Rattle.stage_index.specs.Changes.{blob_id};
ghost use Rattle.worktree.specs.Blobs.{blob_in as blob_in_object, blob_named};

use itoa::Buffer;
use object_text::{Kind, Object};
use objects::read_object;
use seq_base::{Bytes, Id};
use seq_outside::{Halt, Lack, Store};
use sha1::Sha1;
use std::alloc::Global;

/// The id of the blob with these bytes, whose text `blob <length> NUL <bytes>` is hashed in pieces (git-hash-object(1)).
pub fn blob_id_of(bytes: &[u8]) -> Id
    ensures { result ≡ blob_id bytes.now }
{
    let mut buffer = Buffer::new();
    let mut hasher = Sha1::new();
    hasher.update(b"blob ");
    hasher.update(buffer.format(bytes.len()).as_bytes());
    hasher.update(b"\0");
    hasher.update(bytes);
    Id::from_bytes(hasher.finalize())
}

pub(crate) fn is_blob(bytes: &[u8], id: &Id) -> bool
    ensures { result ≡ bytes_eq (blob_id bytes.now) id.now }
{
    blob_id_of(bytes).bytes() == id.bytes()
}

/// The bytes of an object that is a blob.
#[tactic(auto, unfolding(crate::specs::Blobs::blob_in))]
fn blob_in(id: Id, object: Object) -> Result<Bytes, Halt<Lack>>
    ensures gives { Gives (λ bytes. bytes) result (blob_in_object id object) }
    ensures no_fault { IsErrOf result Halt.Fault → ⊥ }
{
    match object.kind {
        Kind::Blob => Ok(object.bytes),
        Kind::Tree => Err(Halt::Stops(Lack::Object { id })),
        Kind::Commit => Err(Halt::Stops(Lack::Object { id })),
        Kind::Tag => Err(Halt::Stops(Lack::Object { id })),
    }
}

/// The bytes of a blob. Object where it is missing, damaged or of another kind, Limit where it is too large.
#[tactic(auto, unfolding(crate::specs::Blobs::blob_named))]
pub fn read_blob<S: Store>(alloc: Global, store: &mut S, id: Id) -> Result<Bytes, Halt<Lack>>
    ensures gives { S.told → Gives (λ bytes. bytes) result (blob_named (S.seen store.old).content id) }
    ensures reads { Reads S.told halt_cause result (S.seen store.old) (S.seen store.new) }
{
    let object = read_object(alloc, store, id)?;
    blob_in(id, object)
}
