// What the search answers.
use sheet::Refusal;

// The most commands of a word that is sought.
pub const MOST_SOUGHT: usize = 6;

// The answer: the length of the word, none, or a refusal; and the word beside it: its commands from
// the front, and 0 behind them or where there is none. An array with its length beside, since
// `Searches` promises each of its bytes, of a refusal too.
#[derive(Clone, Copy, Debug, PartialEq, Eq)]
pub struct Searched {
    pub answer: Result<Option<usize>, Refusal>,
    pub word: [u8; MOST_SOUGHT],
}
