// The words that a program is started with. What their bytes are no contract can say; it says how
// many count.
ghost use Rattle.io.specs.Counts.{IsPrefixLen};

use std::env::{Env, FillError};

// How many words there are, the program's own name among them.
pub fn count_words(rt: &HostRuntime) -> usize {
    let missing = |i| matches!(rt.arg(i, &mut []), Err(FillError::NotPresent));
    (0..usize::MAX).position(missing).unwrap_or(usize::MAX)
}

// Puts a word into a buffer, and gives its length, 0 where it is missing. Of a word that is longer
// than the buffer it gives the first bytes: a caller that lends one byte more than it takes sees
// that a word is too long. No `Option` for a missing word: `count_words` says how many there are.
pub fn read_word(rt: &HostRuntime, i: usize, buf: &mut [u8]) -> usize
    ensures { IsPrefixLen result buf.new }
{
    match rt.arg(i, buf) {
        Ok(size) => size,
        Err(FillError::TooLong) => buf.len(),
        Err(FillError::NotPresent) => 0,
    }
}
