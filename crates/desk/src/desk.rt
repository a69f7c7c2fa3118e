// The desk by value, and what it orders.
use machine::Machine;

// What the desk does: it reads, with the position in the word of the command last sent; it drives,
// with the state reached; or it has ended, at home after so many commands or with a stranger at an
// answer.
#[derive(Clone, Copy, Debug, PartialEq, Eq)]
pub enum Phase {
    Reading { position: u8 },
    Driving { state: u8 },
    Home { after: u8 },
    Stranger { at: u8 },
}

// The machine; the word, in the first `size` bytes of its array; in `heard` the answers to its
// commands before the last; while a command waits for its answer, how many answers are in and that
// command; and the phase. Arrays with a length beside, since the definitions of the desk name them.
#[derive(Clone, Copy, Debug, PartialEq, Eq)]
pub struct Desk {
    pub machine: Machine,
    pub word: [u8; Machine::WORD],
    pub size: u8,
    pub heard: [u8; Machine::WORD],
    pub count: u8,
    pub sent: u8,
    pub phase: Phase,
}

// What is to be done: the next command; home, after so many commands; or stranger, with the number
// of the answer, counted from 0.
#[derive(Clone, Copy, Debug, PartialEq, Eq)]
pub enum Order {
    Command { command: u8 },
    Home { after: u8 },
    Stranger { at: u8 },
}
