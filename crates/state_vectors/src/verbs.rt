//! The verbs.

use crate::{found, states};
use cases::{Case, CaseFault, Verbs};

/// The verbs of the crates state_text and state_found.
pub struct StateVerbs;

impl Verbs for StateVerbs {
    fn answer(&self, verb: &str, case: &mut Case<'_>) -> Result<bool, CaseFault> {
        match verb {
            "state-places" => states::places(case)?,
            "state-files" => states::files(case)?,
            "state-file" => states::file(case)?,
            "stop-writes" => states::stop(case)?,
            "end-writes" => states::end(case)?,
            "read-state" => found::found(case)?,
            _ => return Ok(false),
        }
        Ok(true)
    }
}
