// The search, depth first: words by rising commands, each beginning with the pairs of states that it
// leaves alike, and left as soon as two of them met.
ghost use Rattle.std.specs.Prelude.{◌≡◌};
ghost use Rattle.machine.specs.Machine.{meaning, Proper};
ghost use Rattle.word.specs.Search.{search as the_word};
ghost use Rattle.word.specs.Searching.{BehindRequires, FirstRequires, IsWord, word_on, word_behind};
ghost use Rattle.word.specs.Service.{answer_of, padded};

use crate::answer::{MOST_SOUGHT, Searched};
use crate::pairs::{all_pairs, move_on, told_apart};
use arrayvec::ArrayVec;
use machine::Machine;

// A word of at most as many commands as are sought.
type Word = ArrayVec<u8, MOST_SOUGHT>;

// The first word of a length that begins with a command and tells the pairs apart, if there is one.
// Machine, pairs and command are no struct: the commands are gone through for the same pairs, and
// what is left of these is handed on without a command.
#[cycle(behind_first_word)]
fn behind(m: &Machine, pairs: &[u16], c: u8, length: usize) -> Option<Word>
    requires { BehindRequires pairs.now length }
    ensures { IsWord (word_behind m.now.k m.now.next m.now.answer pairs.now c length) result }
{
    let mut word = if length == 1 {
        told_apart(m, pairs, c).then_some(ArrayVec::new())?
    } else {
        let mut left = ArrayVec::new();
        move_on(m, pairs, c, &mut left)?;
        first_word(m, &left, length - 1)?
    };
    word.insert(0, c);
    Some(word)
}

// The first word of a length that tells the pairs apart, none of which has met, if there is one.
#[cycle(behind_first_word)]
fn first_word(m: &Machine, pairs: &[u16], length: usize) -> Option<Word>
    requires { FirstRequires pairs.now length }
    ensures { IsWord (word_on m.now.k m.now.next m.now.answer pairs.now length) result }
{
    for c in 0..m.k {
        if let Some(word) = behind(m, pairs, c, length) {
            return Some(word);
        }
    }
    None
}

// The word that is sought: the first of the least length, 1 to 6, that has one.
fn sought(m: &Machine) -> Option<Word>
    requires { Proper (meaning m.now) }
    ensures { IsWord (the_word (meaning m.now)) result }
{
    let pairs = all_pairs(m.n);
    for length in 1..=MOST_SOUGHT {
        if let Some(word) = first_word(m, &pairs, length) {
            return Some(word);
        }
    }
    None
}

// That word beside the answer that tells its length; or that there is none.
pub fn shortest_word(m: &Machine) -> Searched
    requires { Proper (meaning m.now) }
    ensures { (result.answer ≡ answer_of (the_word (meaning m.now)))
        × (result.word ≡ padded (the_word (meaning m.now))) }
{
    let mut word = [0u8; MOST_SOUGHT];
    let Some(found) = sought(m) else {
        return Searched {
            answer: Ok(None),
            word,
        };
    };
    let length = found.len();
    word[..length].copy_from_slice(&found);
    Searched {
        answer: Ok(Some(length)),
        word,
    }
}
