// The shortest separating word of at most 6 commands, found for a sheet's machine.
#![tactic(auto)]

mod answer;
mod pairs;
mod search;
mod service;

pub use answer::{MOST_SOUGHT, Searched};
pub use service::{find_word, find_word_with_records};
