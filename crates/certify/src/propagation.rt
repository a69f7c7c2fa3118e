// Following a new mark: its place's commands are followed from the place and from the one that
// represents its state, and marks are carried over on the way. The tables stay as they are.
ghost use Rattle.std.specs.Prelude.{◌≡◌, ◌+◌, ◌<◌, length};
ghost use Rattle.machine.specs.Machine.{meaning};
ghost use Rattle.certify.specs.Folding.{Marking};
ghost use Rattle.certify.specs.Propagation.{Restarted, Equalised, Followed, PropagateRequires};

use crate::chains::{BYTE_STATES, Tables};
use machine::{Machine, entry_at};
use sheet::byte;

// Where following goes on: a place, its state, and the place that represents it.
#[derive(Clone, Copy)]
struct Pair {
    representative: usize,
    place: usize,
    state: u8,
}

// How a marked place is followed: together with the place that represents its state, where there is
// one.
fn restart(root: &[u16; BYTE_STATES], place: usize, state: u8) -> Option<Pair>
    ensures { Restarted root.now place state result }
{
    let representative = usize::from(root[usize::from(state)]).checked_sub(1)?;
    Some(Pair {
        representative,
        place,
        state,
    })
}

// Gives both places one mark. Where one gets it now, following restarts there; where neither has
// it, it goes on from both; where both had it, it stops.
fn equalise(marks: &mut [u8], root: &[u16; BYTE_STATES], pair: Pair) -> Option<Pair>
    requires representative_in_bounds { pair.representative < length marks.old }
    requires place_in_bounds { pair.place < length marks.old }
    ensures { Equalised marks.old root.now pair marks.new result }
{
    let Pair {
        representative,
        place,
        state,
    } = pair;
    if marks[representative] == marks[place] {
        return if marks[place] == 0 { Some(pair) } else { None };
    }
    if marks[representative] == 0 {
        marks[representative] = 1;
        return restart(root, representative, state);
    }
    marks[place] = 1;
    restart(root, place, state)
}

impl Tables<'_> {
    // One command further from a place and from its representative, as far as there is one.
    fn follow(&self, m: &Machine, marks: &mut [u8], pair: Pair) -> Option<Pair>
        requires { length marks.old ≡ length self.now.xs.now + 1 }
        ensures { Followed (meaning m.now) self.now.xs.now marks.old self.now.alt self.now.root pair
            marks.new result }
    {
        let Pair {
            representative,
            place,
            state,
        } = pair;
        if representative >= self.xs.len() || place >= self.xs.len() {
            return None;
        }
        let c = self.xs[place];
        let v = self.alternative(representative, c);
        if self.xs[v] != c {
            return None;
        }
        let e = entry_at(m.k, state, c);
        let further = Pair {
            representative: v + 1,
            place: place + 1,
            state: byte(&m.next, e),
        };
        equalise(marks, &self.root, further)
    }

    // Follows the commands of a marked place p of state s, in at most so many steps; how many are
    // left. A `for` over the steps would not tell how many.
    pub fn propagate(&self, m: &Machine, marks: &mut [u8], p: usize, s: u8, steps: usize) -> usize
        requires { PropagateRequires (meaning m.now) self.now.xs.now marks.old self.now.alt
            self.now.root p s }
        ensures { Marking (meaning m.now) self.now.xs.now marks.old marks.new }
    {
        let mut left = steps;
        let mut at = restart(&self.root, p, s);
        while left > 0
            && let Some(pair) = at
        {
            at = self.follow(m, marks, pair);
            left -= 1;
        }
        left
    }
}
