// The machine that a sheet specifies: its type and limits, checks 3 to 7 and 12, and the house unit.
#![tactic(auto)]

mod checks;
mod house;
mod loading;
mod machine;
mod separation;

pub use checks::{sequence_check, table_check, word_check};
pub use house::{Entry, HOUSE_WORD, house_entry, house_payload};
pub use loading::{Loaded, load_sheet};
pub use machine::{Limits, Machine, entry_at};
