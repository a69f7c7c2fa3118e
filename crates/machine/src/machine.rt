// The machine by value, with its limits and its constructors.
ghost use Rattle.std.specs.Prelude.{◌≡◌, ℕ, ◌+◌, ◌*◌, ◌≤◌, ◌<◌, get_or, take};
ghost use Rattle.sheet.specs.Format.{standard};
ghost use Rattle.machine.specs.Limits.{most_entries, most_machine};
ghost use Rattle.machine.specs.Limits.{limits as the_limits};
ghost use Rattle.machine.specs.Machine.{machine_of, meaning};
ghost use Rattle.machine.specs.House.{house as the_house};

use crate::house::house_payload;
use sheet::{TABLE, byte};

// A machine: n states, k commands, the start, and its table, entry (s, c) at s * k + c. Two columns and
// no array of entries: `cell` of the crate word is lent one column, and the definitions have two.
#[derive(Clone, Copy, Debug, PartialEq, Eq)]
pub struct Machine {
    pub n: u8,
    pub k: u8,
    pub start: u8,
    pub next: [u8; Machine::ENTRIES],
    pub answer: [u8; Machine::ENTRIES],
}

// The limits as values.
#[derive(Clone, Copy, Debug, PartialEq, Eq)]
pub struct Limits {
    pub least: usize,
    pub states: usize,
    pub commands: usize,
    pub word: usize,
    pub sequence: usize,
}

impl Machine {
    // The least of each: states, commands, commands in a word and commands in a sequence.
    pub const LEAST: usize = 1;

    // The most of each.
    pub const STATES: usize = 10;

    pub const COMMANDS: usize = 8;

    pub const WORD: usize = 16;

    pub const SEQUENCE: usize = 20_355;

    // The most entries.
    pub const ENTRIES: usize = Machine::STATES * Machine::COMMANDS;

    // The byte that stands for no answer.
    pub const NO_ANSWER: u8 = 255;

    // The machine of a payload, of which it reads at most as many bytes as the largest machine has.
    pub fn load(p: &[u8]) -> Machine
        ensures { meaning result ≡ machine_of standard (take (most_machine standard) p.now) }
    {
        Machine {
            n: byte(p, 0),
            k: byte(p, 1),
            start: 0,
            next: column(p, TABLE),
            answer: column(p, TABLE + 1),
        }
    }

    // The machine, copied column by column: a copy of more than 128 bytes at once is a call of the C
    // library's `memcpy`, which the archive for C does without.
    pub fn by_columns(self) -> Machine
        ensures { result ≡ self }
    {
        let next = self.next;
        let answer = self.answer;
        Machine {
            next,
            answer,
            ..self
        }
    }

    // The state to which a command leads from a state.
    pub fn next_state(&self, s: u8, c: u8) -> u8
        ensures { result ≡ (meaning self.now).next s c }
    {
        byte(&self.next, entry_at(self.k, s, c))
    }

    // The answer to a command in a state.
    pub fn answer_to(&self, s: u8, c: u8) -> u8
        ensures { result ≡ (meaning self.now).answer s c }
    {
        byte(&self.answer, entry_at(self.k, s, c))
    }

    // The house unit.
    pub fn house() -> Machine
        ensures { meaning result ≡ the_house }
    {
        let payload = house_payload();
        Machine::load(&payload)
    }

    // The limits (§2.2).
    pub fn limits() -> Limits
        ensures { result ≡ the_limits }
    {
        Limits {
            least: Machine::LEAST,
            states: Machine::STATES,
            commands: Machine::COMMANDS,
            word: Machine::WORD,
            sequence: Machine::SEQUENCE,
        }
    }
}

// One column of a payload's pairs: every second byte from a place on.
fn column(p: &[u8], from: usize) -> [u8; Machine::ENTRIES]
    requires { from ≤ standard.table + 1 }
    ensures { (e : ℕ) → e < most_entries → get_or result e 0 ≡ get_or p.now (from + 2 * e) 0 }
{
    let mut cells = [0u8; Machine::ENTRIES];
    for (e, cell) in cells.iter_mut().enumerate() {
        *cell = byte(p, from + 2 * e);
    }
    cells
}

// Where the entry of a state and a command stands in the table.
pub fn entry_at(k: u8, s: u8, c: u8) -> usize
    ensures { result ≡ s * k + c }
{
    s as usize * k as usize + c as usize
}
