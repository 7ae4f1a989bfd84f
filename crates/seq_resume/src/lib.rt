//! Whether a stopped list is gone on with, and how, before its lines. Each part follows its definition, over any store.
#![tactic(auto)]

mod going;
mod pending;
mod resuming;
mod taking;

pub use going::{resume_from, resume_state};
pub use resuming::{find_committer, judge_resuming, want_resettable};
pub use taking::take_up;
