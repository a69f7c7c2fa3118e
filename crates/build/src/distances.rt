// The distances of all states to one state, found breadth first: each round adds the states that are
// one command further. The machine is lent, so that no call copies it.
ghost use Rattle.std.specs.Prelude.{◌≡◌, ℕ, ◌+◌, ◌-◌, ◌≤◌, ◌<◌, length, replicate, MatchOption};
ghost use Rattle.machine.specs.Machine.{meaning};
ghost use Rattle.build.specs.Distances.{FirstStep, Widened, Distances};

use machine::Machine;

// The least command that leads from a state to one at distance d, if one does.
pub fn first_step(m: &Machine, distance: &[Option<u8>; 256], s: u8, d: u8) -> Option<u8>
    ensures { MatchOption result (FirstStep m.now.next m.now.k distance.now s d m.now.k)
        (λ c. (c < m.now.k) × FirstStep m.now.next m.now.k distance.now s d c) }
{
    for c in 0..m.k {
        let t = m.next_state(s, c);
        if distance[t as usize] == Some(d) {
            return Some(c);
        }
    }
    None
}

// The distance of a state after a round: the one that is known, or d + 1 where a command leads to a
// state at distance d.
fn widened(m: &Machine, distance: &[Option<u8>; 256], s: u8, d: u8) -> Option<u8>
    requires { d + 1 < 256 }
    ensures { Widened m.now.next m.now.k distance.now d s result }
{
    if let Some(known) = distance[s as usize] {
        return Some(known);
    }
    first_step(m, distance, s, d)?;
    Some(d + 1)
}

// From the states at most d commands away to those at most d + 1 away.
fn widen(m: &Machine, distance: &mut [Option<u8>; 256], d: u8)
    requires reachable { d + 1 < 256 }
    requires distance_len { length distance.old ≡ 256 }
    ensures { (to : ℕ) → Distances (meaning m.now) to d distance.old
        → Distances (meaning m.now) to (d + 1) distance.new }
{
    for s in 0..m.n {
        distance[s as usize] = widened(m, distance, s, d);
    }
}

// The least number of commands, below n, from each state to one state, if any lead there, in a table
// that has none yet. It is lent: each table that a function returned would lie on the stack three times.
// `few` is what the type of n says: a proof knows it only where the code reads n, as `transfer` does not.
pub fn measure(m: &Machine, to: u8, distance: &mut [Option<u8>; 256])
    requires { distance.old ≡ replicate 256 None }
    ensures few { m.now.n ≤ 255 }
    ensures distances { Distances (meaning m.now) to (m.now.n - 1) distance.new }
{
    if to < m.n {
        distance[to as usize] = Some(0);
    }
    for d in 0..m.n.saturating_sub(1) {
        widen(m, distance, d);
    }
}
