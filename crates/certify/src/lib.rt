// Recognition and certification of a sequence: its room, the marks, and what is certified.
#![tactic(auto)]

mod answer;
mod chains;
mod closure;
mod loading;
mod propagation;
mod service;
mod sweep;
mod tally;
mod word;

pub use answer::{Certification, values_of};
pub use loading::load_sequence;
pub use service::{certify, certify_loaded};
