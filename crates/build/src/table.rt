// The transfers B(s) of the prescribed sequence, from where the word takes s to the state after s, in
// a table, and cause 8.
ghost use Rattle.std.specs.Prelude.{◌≡◌, ◌<◌, length};
ghost use Rattle.machine.specs.Limits.{most_states};
ghost use Rattle.machine.specs.Machine.{meaning, run, Proper};
ghost use Rattle.sheet.specs.Check.{Clear};
ghost use Rattle.build.specs.Sequence.{following as following_of};
ghost use Rattle.build.specs.Building.{cause8};
ghost use Rattle.build.specs.Table.{row_size, Stored, Filled};

use crate::transfers::transfer;
use machine::Machine;
use sheet::{Check, Refusal};

// A row for each state: the length of its transfer, then the commands. Paths in place of rows would
// take 2,570 bytes of stack, of the 4,096 that the desk may take.
pub const ROW: usize = Machine::STATES;

pub const ROWS: usize = Machine::STATES * ROW;

// The state after s, 0 after the last.
pub fn following(n: u8, s: u8) -> u8
    requires { s < n }
    ensures { result ≡ following_of n s }
{
    let t = s + 1;
    if t == n {
        return 0;
    }
    t
}

// Where a word takes a state.
fn word_end(m: &Machine, w: &[u8], s: u8) -> u8
    ensures { result ≡ run (meaning m.now) s w.now }
{
    let mut t = s;
    for c in w {
        t = m.next_state(t, *c);
    }
    t
}

// Stores the transfer of a state.
fn store(rows: &mut [u8; ROWS], s: u8, commands: &[u8])
    requires s_lt_most_states { s < most_states }
    requires size_lt_row_size { length commands.now < row_size }
    ensures { Stored rows.old rows.new s (length commands.now) commands.now }
{
    let from = s as usize * ROW;
    rows[from] = commands.len() as u8;
    sheet::put(commands, from + 1, rows);
}

// Finds all transfers: cause 8 at the first that is missing, else the table is filled.
pub fn connect(m: &Machine, w: &[u8], rows: &mut [u8; ROWS]) -> Check
    requires { Proper (meaning m.now) }
    ensures value { result ≡ cause8 (meaning m.now) w.now }
    ensures filled { result ≡ Clear → Filled (meaning m.now) w.now (meaning m.now).n rows.new }
{
    for s in 0..m.n {
        let from = word_end(m, w, s);
        let Some(path) = transfer(m, from, following(m.n, s)) else {
            let place = s as usize;
            return Err(Refusal { number: 8, place });
        };
        store(rows, s, path.as_slice());
    }
    Ok(())
}
