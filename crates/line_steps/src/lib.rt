//! What each line of a todo does to a world, as steps, and the types that they speak of: where a list stands, and how it stops.
#![tactic(auto)]

mod pause;
mod place;
mod setting;
mod stop;
mod unclean;

pub use pause::Pause;
pub use place::Place;
pub use setting::Setting;
pub use stop::Stop;
pub use unclean::Unclean;
