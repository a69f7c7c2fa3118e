// The identification of the state in which a unit began, by its answers to the word.
ghost use Rattle.std.specs.Prelude.{◌≡◌, length};
ghost use Rattle.machine.specs.Machine.{meaning};
ghost use Rattle.desk.specs.Identification.{Follows, Identifies};

use machine::Machine;

// Where the word leads from a state, if the state gives these answers to it.
fn follow(m: &Machine, w: &[u8], ys: &[u8], s: u8) -> Option<u8>
    requires { length w.now ≡ length ys.now }
    ensures { Follows (meaning m.now) w.now ys.now s result }
{
    let mut state = s;
    for (c, y) in w.iter().zip(ys) {
        if m.answer_to(state, *c) != *y {
            return None;
        }
        state = m.next_state(state, *c);
    }
    Some(state)
}

// Where the word leads from the least state that gives these answers to it, if one does.
pub fn identify(m: &Machine, w: &[u8], ys: &[u8]) -> Option<u8>
    requires { length w.now ≡ length ys.now }
    ensures { Identifies (meaning m.now) w.now ys.now result }
{
    for s in 0..m.n {
        if let Some(end) = follow(m, w, ys, s) {
            return Some(end);
        }
    }
    None
}
