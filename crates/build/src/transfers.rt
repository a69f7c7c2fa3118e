// The transfer from a state to a state (§6.1), or that there is none.
ghost use Rattle.std.specs.Prelude.{◌≡◌, take, MatchOption};
ghost use Rattle.machine.specs.Machine.{meaning};
ghost use Rattle.build.specs.Distances.{Descent, Blocked};
ghost use Rattle.build.specs.Transfer.{transfer_in};
ghost use Rattle.build.specs.Transfer.{transfer as transfer_of};

use crate::distances::{first_step, measure};
use machine::Machine;

// The commands of a transfer, the first `length` of the array; the rest of it is free. No `ArrayVec`:
// how many they are is known before the first of them.
#[derive(Clone, Copy)]
pub struct Path {
    pub length: u8,
    pub commands: [u8; 256],
}

impl Path {
    // The commands.
    pub fn as_slice(&self) -> &[u8]
        ensures { result.now ≡ take self.now.length self.now.commands }
    {
        &self.commands[..self.length as usize]
    }
}

// The path from a state whose distance is `length`: each time the least command that leads to a
// state one nearer. None where there is none such, which distances that are right rule out.
fn descend(m: &Machine, distance: &[Option<u8>; 256], from: u8, length: u8) -> Option<Path>
    ensures { MatchOption result (Blocked m.now.next m.now.k distance.now from length)
        (λ p. Descent m.now.next m.now.k distance.now from length (take p.length p.commands)) }
{
    let mut path = Path {
        length,
        commands: [0; 256],
    };
    let mut s = from;
    for i in 0..length {
        let c = first_step(m, distance, s, length - 1 - i)?;
        path.commands[i as usize] = c;
        s = m.next_state(s, c);
    }
    Some(path)
}

// The transfer of any machine, from any byte to any byte; to or from what is no state of it there
// is none.
pub fn transfer(m: &Machine, from: u8, to: u8) -> Option<Path>
    ensures { transfer_in result ≡ transfer_of (meaning m.now) from to }
{
    let mut distance = [None; 256];
    measure(m, to, &mut distance);
    let length = distance[from as usize]?;
    descend(m, &distance, from, length)
}
