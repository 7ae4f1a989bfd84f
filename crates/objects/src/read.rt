//! Reading an object.

ghost use Rattle.std.specs.Prelude.{◌≡◌};
ghost use Rattle.object_text.specs.Store.{object_at};
ghost use Rattle.sha1.specs.Sha1.{sha1};
ghost use Rattle.seq_outside.specs.Seen.{Reads};
ghost use Rattle.objects.specs.Causes.{object_cause};
ghost use Rattle.objects.specs.Reads.{GivesObject, IsGot, Reads as ReadsText};

use crate::fault::ObjectFault;
use crate::place::{CONTENT_LIMIT, path_of};
use object_text::{Object, TextFault, parse_object};
use seq_base::Id;
use seq_outside::Store;
use sha1::Sha1;
use std::alloc::Global;

/// The id of the object whose text the bytes are.
pub fn id_of_text(text: &[u8]) -> Id
    ensures { result ≡ sha1 text.now }
{
    Id::from_bytes(Sha1::digest(text))
}

/// The object that the bytes of its file are.
fn object_in(alloc: Global, text: &[u8], id: Id) -> Result<Object, ObjectFault>
    ensures { ReadsText id text.now result }
{
    let found = id_of_text(text);
    match parse_object(alloc, text) {
        Ok(object) => {
            let length = object.bytes.as_slice().len();
            if length > CONTENT_LIMIT {
                return Err(ObjectFault::TooLarge {
                    length: length as u64,
                });
            }
            if found != id {
                return Err(ObjectFault::WrongHash { id, found });
            }
            Ok(object)
        }
        Err(TextFault::Bad { at }) => {
            if found != id {
                return Err(ObjectFault::WrongHash { id, found });
            }
            Err(ObjectFault::BadText { at })
        }
        Err(TextFault::Parents { .. }) => unreachable!(),
        Err(TextFault::Memory) => Err(ObjectFault::Memory),
    }
}

/// The object of an id, as its file has it (git-cat-file(1)). Missing where there is no file; else TooLarge where the file is
/// the text of an object whose content passes the limit; else WrongHash where the file has another id; else BadText where it
/// is no text of an object.
pub fn get<S: Store>(alloc: Global, store: &mut S, id: Id) -> Result<Object, ObjectFault>
    ensures file { S.told → IsGot (S.seen store.old).content id result }

    // It follows from `file`.
    ensures object { S.told → GivesObject result (object_at (S.seen store.old).content id) }
    ensures reads { Reads S.told object_cause result (S.seen store.old) (S.seen store.new) }
{
    let path = path_of(alloc, id)?;
    match store.get(alloc, &path)? {
        Some(text) => object_in(alloc, &text, id),
        None => Err(ObjectFault::Missing),
    }
}
