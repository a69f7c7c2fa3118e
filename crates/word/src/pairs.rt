// Pairs of states, each one number: 256 times the one state, and the other; no tuple, since the
// definitions of the search (`pair_of`, `moved`) compute with such numbers. A search keeps the pairs
// whose states answered a beginning alike, each with the states in which it is then.
ghost use Rattle.std.specs.Prelude.{◌≡◌, ◌+◌, ◌≤◌, ◌++◌, length};
ghost use Rattle.arrayvec.specs.ArrayVec.{array_vec_len};
ghost use Rattle.machine.specs.Limits.{most_states};
ghost use Rattle.word.specs.Search.{pair_of, pairs_with, alike, moved};
ghost use Rattle.word.specs.Search.{all_pairs as pairs_below};
ghost use Rattle.word.specs.Searching.{most_pairs, cells, none_alike, MovesOn};

use arrayvec::ArrayVec;
use machine::{Machine, entry_at};
use sheet::byte;

// The most pairs.
const PAIRS: usize = Machine::STATES * (Machine::STATES - 1) / 2;

// Pairs, at most as many as the most states have.
pub type Pairs = ArrayVec<u16, PAIRS>;

// A pair as one number.
fn pair(s: u8, t: u8) -> u16
    ensures { result ≡ pair_of s t }
{
    256 * (s as u16) + t as u16
}

// Pushes the pairs of a state with those below it.
#[tactic(auto, using(crate::proofs::Moving::pushed_long), unfolding(crate::specs::Search::pairs_with))]
fn push_pairs(j: u8, pairs: &mut Pairs)
    requires { array_vec_len pairs.old + j ≤ most_pairs }
    ensures { pairs.new.items ≡ pairs.old.items ++ pairs_with j j }
{
    for i in 0..j {
        pairs.push(pair(i, j));
    }
}

// All pairs of different states below n.
#[tactic(auto, using(crate::proofs::Moving::more_pairs), unfolding(crate::specs::Search::all_pairs))]
pub fn all_pairs(n: u8) -> Pairs
    requires { n ≤ most_states }
    ensures { result.items ≡ pairs_below n }
{
    let mut pairs = ArrayVec::new();
    for j in 0..n {
        push_pairs(j, &mut pairs);
    }
    pairs
}

// What a column of the table holds for a state and a command.
fn cell(column: &[u8], k: u8, s: u8, c: u8) -> u8
    ensures { result ≡ cells k column.now s c }
{
    byte(column, entry_at(k, s, c))
}

// Whether the two states of a pair answer a command alike.
fn answer_alike(m: &Machine, p: u16, c: u8) -> bool
    ensures { result ≡ alike (cells m.now.k m.now.answer) c p }
{
    cell(&m.answer, m.k, (p / 256) as u8, c) == cell(&m.answer, m.k, (p % 256) as u8, c)
}

// Where a command leads the two states of a pair.
fn moved_pair(m: &Machine, p: u16, c: u8) -> u16
    ensures { result ≡ moved (cells m.now.k m.now.next) c p }
{
    pair(
        cell(&m.next, m.k, (p / 256) as u8, c),
        cell(&m.next, m.k, (p % 256) as u8, c),
    )
}

// Whether the states of each pair answer a command differently. A `for`: in a sketch of the search `all`
// of the iterator took more jumps, and up to a quarter more time where few pairs are left.
pub fn told_apart(m: &Machine, pairs: &[u16], c: u8) -> bool
    ensures { result ≡ none_alike m.now.k m.now.answer pairs.now c }
{
    for p in pairs {
        if answer_alike(m, *p, c) {
            return false;
        }
    }
    true
}

// Leaves the pairs that answer a command alike, each where it leads them, or answers none where two
// states met. What is left is lent: as a result it would be copied for each beginning of a word.
pub fn move_on(m: &Machine, pairs: &[u16], c: u8, left: &mut Pairs) -> Option<()>
    requires { length pairs.now ≤ most_pairs }
    ensures { MovesOn m.now.k m.now.next m.now.answer pairs.now c left.new result }
{
    left.clear();
    for p in pairs {
        if answer_alike(m, *p, c) {
            let q = moved_pair(m, *p, c);
            if q / 256 == q % 256 {
                return None;
            }
            left.push(q);
        }
    }
    Some(())
}
