// The case runner: reads cases as text from standard input and writes the same text with the answer
// below each case. docs/CASES.md describes the notation.
#![tactic(auto)]

mod answers;
mod buffers;
mod bytes;
mod fields;
mod lines;
mod names;
mod output;
mod parts;
mod reader;
mod services;

use buffers::front;
use lines::Runner;
use std::io::Result;
use streams::{count_words, read_input, write_error};

// The most bytes of an input, of a case's parts together, and of a lent buffer.
const CAPACITY: usize = 1_048_576;

// One byte more, so that an input that is too large is seen to be.
const INPUT: usize = CAPACITY + 1;

// The most bytes that wait to be written.
const OUTPUT: usize = 65_536;

// The most digits of a 64-bit number.
const DIGITS: usize = 20;

// Arrays of this size come from a function of their own: the prover computes one that is a local's
// first value byte by byte.
fn space<const N: usize>() -> [u8; N] {
    [0u8; N]
}

// Answers the cases of a whole input. A failure of standard output was told, and ends the answers.
fn answer(rt: &HostRuntime, input: &[u8]) {
    let mut parts = space::<CAPACITY>();
    let mut lent = space::<CAPACITY>();
    let mut waiting = [0u8; OUTPUT];
    let mut runner = Runner::new(rt, &mut parts, &mut lent, &mut waiting);
    let _ = runner.answer_lines(input);
}

// Writes a number to standard error.
fn write_number(rt: &HostRuntime, n: u64) -> Result<()> {
    let mut digits = [0u8; DIGITS];
    let size = io::decimal(n, &mut digits);
    write_error(rt, &digits[..size])
}

// Tells that an input is too large, in three pieces: each goes out only where the one before it did.
fn tell_too_large(rt: &HostRuntime) -> Result<()> {
    write_error(rt, b"cases: the input has more than ")?;
    write_number(rt, CAPACITY as u64)?;
    write_error(rt, b" bytes\n")
}

// Answers an input unless it is too large. Where standard error fails nothing is left to tell it on.
fn answer_or_tell(rt: &HostRuntime, input: &[u8]) {
    if CAPACITY < input.len() {
        let _ = tell_too_large(rt);
    } else {
        answer(rt, input);
    }
}

// Reads the input, one byte more than is taken where it has as many.
fn answer_input(rt: &HostRuntime) {
    let mut input = space::<INPUT>();
    if let Ok(size) = read_input(rt, &mut input) {
        answer_or_tell(rt, front(&input, size));
    }
}

fn main(rt: HostRuntime) {
    if 1 < count_words(&rt) {
        let _ = write_error(
            &rt,
            b"cases: takes no arguments; the cases come on standard input\n",
        );
    } else {
        answer_input(&rt);
    }
}
