// What the services are given, read from standard input and from the files that words name, and
// what the bench answers, written. Where reading fails, which is told, nothing more is read and
// nothing is written.
ghost use Rattle.std.specs.Prelude.{◌<◌};

use crate::output::write_both;
use crate::services::{Inputs, bench};
use crate::words::{WORDS, Words};
use report::{INPUT, OUTPUT, PART};
use streams::{Told, read_file, read_input};

// Writes what the bench answers to its words and what it is given.
fn answer(rt: &HostRuntime, words: &Words, inputs: &Inputs) -> Result<(), Told> {
    let mut bytes = [0u8; OUTPUT];
    let written = bench(words, inputs, &mut bytes);
    write_both(rt, &bytes, written)
}

// Answers to the words alone.
pub(crate) fn answer_words(rt: &HostRuntime, words: &Words) -> Result<(), Told> {
    answer(rt, words, &Inputs::of_sheet(b"", b""))
}

// Reads a sheet from standard input, and answers to it and these answers.
pub(crate) fn answer_sheet(rt: &HostRuntime, words: &Words, answers: &[u8]) -> Result<(), Told> {
    let mut sheet = [0u8; INPUT];
    let size = read_input(rt, &mut sheet)?;
    answer(rt, words, &Inputs::of_sheet(&sheet[..size], answers))
}

// What the file holds that a word names, where there is that word, else nothing.
fn read_part<'a>(
    rt: &HostRuntime,
    words: &Words,
    i: usize,
    buf: &'a mut [u8],
) -> Result<&'a [u8], Told>
    requires { i < WORDS }
{
    if words.count <= i {
        return Ok(b"");
    }
    let size = read_file(rt, words.first[i], buf)?;
    Ok(&buf[..size])
}

// Reads the answers of a file, and answers to them and a sheet on standard input.
pub(crate) fn answer_answers(rt: &HostRuntime, words: &Words) -> Result<(), Told> {
    let mut answers = [0u8; PART];
    let answers = read_part(rt, words, 1, &mut answers)?;
    answer_sheet(rt, words, answers)
}

// Reads the files of machine and word, and those of sequence and answers that are named, in their
// order, and answers to these parts.
pub(crate) fn answer_parts(rt: &HostRuntime, words: &Words) -> Result<(), Told> {
    let mut machine = [0u8; PART];
    let mut word = [0u8; PART];
    let mut sequence = [0u8; PART];
    let mut answers = [0u8; PART];
    let inputs = Inputs::of_parts(
        read_part(rt, words, 1, &mut machine)?,
        read_part(rt, words, 2, &mut word)?,
        read_part(rt, words, 3, &mut sequence)?,
        read_part(rt, words, 4, &mut answers)?,
    );
    answer(rt, words, &inputs)
}
