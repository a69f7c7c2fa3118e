// Cause 6: whether a word separates the states.
ghost use Rattle.std.specs.Prelude.{◌≡◌, ◌+◌, ◌*◌, ◌<◌};
ghost use Rattle.facts.specs.Lists.{same};
ghost use Rattle.sheet.specs.Check.{first};
ghost use Rattle.machine.specs.Machine.{answers, meaning};
ghost use Rattle.machine.specs.Causes.{pair_cause, cause6};

use crate::machine::Machine;
use sheet::{Check, Refusal};

// Whether two states answer a word alike.
fn agree(m: &Machine, w: &[u8], i: u8, j: u8) -> bool
    ensures { result ≡ same (answers (meaning m.now) i w.now) (answers (meaning m.now) j w.now) }
{
    let mut s = i;
    let mut t = j;
    for c in w {
        if m.answer_to(s, *c) != m.answer_to(t, *c) {
            return false;
        }
        s = m.next_state(s, *c);
        t = m.next_state(t, *c);
    }
    true
}

// The place of a pair of states: 16i+j.
fn pair_place(i: u8, j: u8) -> usize
    ensures { result ≡ 16 * i + j }
{
    16 * (i as usize) + j as usize
}

// The least j above i whose answers equal those of i.
fn partner(m: &Machine, w: &[u8], i: u8) -> Check
    requires { i < m.now.n }
    ensures { result ≡ first m.now.n (pair_cause (meaning m.now) w.now i) }
{
    let n = m.n;
    for j in i + 1..n {
        if agree(m, w, i, j) {
            let place = pair_place(i, j);
            return Err(Refusal { number: 6, place });
        }
    }
    Ok(())
}

// Cause 6: the least i, then the least j above it.
pub fn separation(m: &Machine, w: &[u8]) -> Check
    ensures { result ≡ cause6 (meaning m.now) w.now }
{
    for i in 0..m.n {
        partner(m, w, i)?;
    }
    Ok(())
}
