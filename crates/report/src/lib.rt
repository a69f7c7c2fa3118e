// What the bench writes: the cause phrases, the output lines, the sheets and the list of services,
// each service's bytes for each stream, made in a lent buffer.
#![tactic(auto)]

mod dialogue;
mod lines;
mod numbers;
mod output;
mod phrases;
mod pieces;
mod services;
mod sheets;
mod words;

pub use dialogue::{LINE, Turned, begin, input_ended, turn};
pub use numbers::number_in;
pub use output::{OUTPUT, Written};
pub use services::{INPUT, certify_sheet, judge_sheet, read_record};
pub use sheets::{PART, answers_sheet, build_sheet, house_sheet, word_sheet, write_sheet};
pub use words::{Mistake, help, tell};
