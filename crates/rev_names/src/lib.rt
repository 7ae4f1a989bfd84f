//! The commits that words name, by the refs, logs and objects of a store.
#![tactic(auto)]

mod base;
mod commit;
mod fault;
mod laws;
mod names;
mod refs;
mod rev;
mod steps;

pub use fault::RevFault;
pub use laws::{first_ref_has_value, tags_lead_to_commit, word_names_commit};
pub use rev::{resolve_label, resolve_rev};
