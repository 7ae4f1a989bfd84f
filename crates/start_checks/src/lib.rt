//! What each command looks at before it begins, one call a check, over any store: that there is a repository, HEAD and its commit, the
//! packed refs, the configuration, the index, who commits, the commit that a word names, and commits and maps by their ids. Each refuses
//! by the definition of its own in seq_model.
#![tactic(auto)]

mod basis;
mod commits;
mod halt;
mod identity;
mod index;
mod named;
mod place;
mod repository;
mod settings;

pub use basis::{Basis, read_basis};
pub use commits::{commit_map, commit_of, tree_map};
pub use halt::{file_halt, git_halt, put_halt};
pub use identity::committer;
pub use index::{INDEX_LIMIT, read_index, want_merged};
pub use named::{born, commit_by};
pub use place::{head_place, place_in, want_refs};
pub use repository::want_repository;
pub use settings::{driver_jobs, read_config, taken_config, want_supported};
