// The desk (§13): from any state of a unit to the start, command by command.
#![tactic(auto)]

mod desk;
mod identification;
mod starting;
mod stepping;

pub use desk::{Desk, Order, Phase};
pub use starting::{Started, start};
pub use stepping::{Stepped, step};
