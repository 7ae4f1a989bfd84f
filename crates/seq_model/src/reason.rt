//! Why a line is blocked.

use seq_base::{Bytes, Id};
use seq_outside::LimitWhat;

/// Why a line of the todo is blocked.
#[derive(Drop)]
pub enum Reason {
    /// An untracked file is in the way.
    WouldOverwrite { path: Bytes },
    /// A name gives no commit, or a ref cannot be written.
    BadName { word: Bytes },
    /// Two commits have no merge base.
    NoBase,
    /// Two commits have several merge bases: the first two.
    SeveralBases { first: Id, second: Id },
    /// An object is missing or damaged, or of another kind than is needed.
    BadObject { id: Id },
    /// HEAD cannot be read.
    BadHead,
    /// The index cannot be read.
    BadIndex,
    /// HEAD names another commit than the line last wrote.
    HeadMoved { found: Option<Id> },
    /// The index or a tracked file was changed.
    Dirty { path: Bytes },
    /// A quantity passes its limit.
    Limit { what: LimitWhat, number: u64 },
}
