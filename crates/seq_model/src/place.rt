//! What HEAD is.

use ref_text::Head;
use seq_base::Id;

/// What HEAD is, and the commit that it is at: none where its branch has no commit yet.
#[derive(Drop)]
pub struct Place {
    pub head: Head,
    pub tip: Option<Id>,
}
