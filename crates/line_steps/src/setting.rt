//! What a turn is given.

use config_text::Config;
use seq_model::Committer;
use seq_outside::Env;

/// What a turn is given beside the repository.
#[derive(Drop)]
pub struct Setting {
    pub env: Env,
    /// The moment with which it began, in seconds.
    pub secs: i64,
    /// The configuration that stood then.
    pub config: Config,
    /// Who commits by these.
    pub committer: Committer,
}
