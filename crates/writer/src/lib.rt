// Sheets written of their parts: refusals 3 to 7, 9, 10 and 12 of payloads that stand in no sheet yet;
// and answers added to a sheet.
#![tactic(auto)]

mod checks;
mod parts;
mod putting;
mod service;
mod wanted;

pub use service::{add_answers, write};
pub use wanted::Wanted;
