//! Objects as bytes: blobs, trees, commits and tags, both ways; and in `specs/` what the objects of a store are.
#![tactic(auto)]

mod commit;
mod commit_write;
mod fault;
mod header;
mod headers;
mod laws;
mod object;
mod tag;
mod tree;
mod tree_name;

pub use commit::{Commit, Ids, parse_commit};
pub use commit_write::commit_text;
pub use fault::TextFault;
pub use laws::{
    author_reads_as_ident, commit_is_kept, map_is_led_to, object_is_kept, tag_is_kept, tree_is_kept,
};
pub use object::{Kind, Object, object_header, object_text, parse_object};
pub use tag::parse_tag;
pub use tree::{TreeEntry, parse_tree, tree_text};
