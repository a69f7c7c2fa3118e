// Judging a unit's answers to a certified sequence: refusals 10 and 11, and the identity claim.
#![tactic(auto)]

mod answer;
mod comparison;
mod service;

pub use answer::{Judgement, values_of};
pub use service::judge;
