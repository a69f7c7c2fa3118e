// The bench program: takes the words that it is started with, reads from standard input and files
// what the service takes, and writes to standard output and standard error.
#![tactic(auto)]

ghost use Rattle.std.specs.Prelude.{◌≡◌, ◌-◌};

mod dialogue;
mod inputs;
mod output;
mod services;
mod words;

use dialogue::converse;
use inputs::{answer_answers, answer_parts, answer_sheet, answer_words};
use services::input_source;
use streams::{Told, count_words, read_word};
use words::{Source, WORD_BUFFER, Words};

// Answers the words: an arm for each source, of which each reads something else.
fn run(rt: &HostRuntime, words: &Words) -> Result<(), Told> {
    match input_source(words) {
        Source::Nothing => answer_words(rt, words),
        Source::Standard => answer_sheet(rt, words, b""),
        Source::File => converse(rt, words.first[1]),
        Source::Parts => answer_parts(rt, words),
        Source::Answers => answer_answers(rt, words),
    }
}

// A word that the program is started with, in a buffer for it.
fn word<'a>(rt: &HostRuntime, i: usize, buf: &'a mut [u8]) -> &'a [u8] {
    let size = read_word(rt, i, buf);
    &buf[..size]
}

// How many words stand behind the program's own name, of all that it was started with.
fn behind_name(given: usize) -> usize
    ensures { result ≡ given - 1 }
{
    given.saturating_sub(1)
}

// What fails was told, and a program has no exit status to set.
fn main(rt: HostRuntime) {
    let mut first = [0u8; WORD_BUFFER];
    let mut second = [0u8; WORD_BUFFER];
    let mut third = [0u8; WORD_BUFFER];
    let mut fourth = [0u8; WORD_BUFFER];
    let mut fifth = [0u8; WORD_BUFFER];
    let words = Words {
        count: behind_name(count_words(&rt)),
        first: [
            word(&rt, 1, &mut first),
            word(&rt, 2, &mut second),
            word(&rt, 3, &mut third),
            word(&rt, 4, &mut fourth),
            word(&rt, 5, &mut fifth),
        ],
    };
    let _ = run(&rt, &words);
}
