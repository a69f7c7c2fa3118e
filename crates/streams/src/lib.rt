// A program's words, standard input or a file read to its end or until the buffer is full, a line of
// standard input, and bytes written. A failure is told on standard error.
#![tactic(auto)]

mod input;
mod line;
mod output;
mod telling;
mod words;

pub use input::{read_file, read_input};
pub use line::read_line;
pub use output::{write_error, write_output};
pub use telling::Told;
pub use words::{count_words, read_word};
