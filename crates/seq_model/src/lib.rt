//! The meaning of what the program does, as definitions, and the plain types that they speak of: the outcomes of an
//! invocation, what each prints, and its exit status.
#![tactic(auto)]

mod command;
mod committer;
mod denial;
mod form;
mod outcome;
mod place;
mod reason;
mod refusal;
mod reply;
mod stop;
mod usage;
mod verb;

pub use command::{Command, PlumbWords, StartWords, Values};
pub use committer::Committer;
pub use denial::{Denial, refused};
pub use form::Form;
pub use outcome::{Outcome, Paths};
pub use place::Place;
pub use reason::Reason;
pub use refusal::Refusal;
pub use reply::{Reply, outcome_of};
pub use seq_outside::LimitWhat;
pub use state_text::{Empty, Options, Verb};
pub use stop::StopKind;
pub use todo_text::TodoKind;
pub use usage::UsageFault;
pub use verb::Action;
