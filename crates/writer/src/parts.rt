// The parts of a sheet.

// The payloads of the machine, the word, the sequence and the answers.
#[derive(Clone, Copy)]
pub struct Parts<'a> {
    pub machine: &'a [u8],
    pub word: &'a [u8],
    pub sequence: &'a [u8],
    pub answers: &'a [u8],
}
