// The desk from answer to answer.
ghost use Rattle.std.specs.Prelude.{◌≡◌, ◌+◌, ◌≤◌, length};
ghost use Rattle.machine.specs.Limits.{most_word};
ghost use Rattle.desk.specs.Service.{Steps};
ghost use Rattle.desk.specs.Stepping.{AtHome, AtStranger, Arrives, Drives, Finds, Hears};

use crate::desk::{Desk, Order, Phase};
use crate::identification::identify;
use build::transfer;
use machine::Machine;

// The desk after an answer, and what is to be done.
#[derive(Clone, Copy, Debug, PartialEq, Eq)]
pub struct Stepped {
    pub order: Order,
    pub desk: Desk,
}

impl Desk {
    // The desk has ended at home.
    fn home(self, after: u8) -> Stepped
        ensures { AtHome self after result }
    {
        let phase = Phase::Home { after };
        Stepped {
            order: Order::Home { after },
            desk: Desk { phase, ..self },
        }
    }

    // The desk has ended with a stranger. One function of both ends would take phase and order, which are
    // all that there is.
    fn stranger(self, at: u8) -> Stepped
        ensures { AtStranger self at result }
    {
        let phase = Phase::Stranger { at };
        Stepped {
            order: Order::Stranger { at },
            desk: Desk { phase, ..self },
        }
    }

    // The unit has come to a state: home, or the first command of the transfer from there.
    fn arrive(self, state: u8, count: u8) -> Stepped
        ensures { Arrives self state count result }
    {
        let start = self.machine.start;
        if state == start {
            return self.home(count);
        }
        // Where a desk was started there is a transfer.
        let command = match transfer(&self.machine, state, start) {
            Some(path) => path.commands[0],
            None => 0,
        };
        let phase = Phase::Driving { state };
        Stepped {
            order: Order::Command { command },
            desk: Desk {
                count,
                sent: command,
                phase,
                ..self
            },
        }
    }

    // The answer to a command of the transfer.
    fn drive(self, state: u8, answer: u8) -> Stepped
        ensures { Drives self state answer result }
    {
        if self.machine.answer_to(state, self.sent) != answer {
            return self.stranger(self.count);
        }
        let reached = self.machine.next_state(state, self.sent);
        self.arrive(reached, self.count.saturating_add(1))
    }

    // The word is answered: the state where it ends, by the state in which the unit began.
    fn find(self, heard: &[u8], position: u8) -> Stepped
        requires size_le_most_word { self.size ≤ most_word }
        requires heard_len { length heard.now ≡ self.size }
        requires last_position { position + 1 ≡ self.size }
        ensures { Finds self position heard.now result }
    {
        match identify(&self.machine, &self.word[..self.size as usize], heard) {
            Some(state) => self.arrive(state, position + 1),
            None => self.stranger(position),
        }
    }

    // The answer to a command of the word.
    fn hear(self, position: u8, answer: u8) -> Stepped
        ensures { Hears self position answer result }
    {
        let size = self.size as usize;
        let at = position as usize;
        if Machine::WORD < size || size <= at {
            return self.stranger(position);
        }
        let mut heard = self.heard;
        heard[at] = answer;
        if at + 1 == size {
            return self.find(&heard[..size], position);
        }
        let command = self.word[at + 1];
        let next = position + 1;
        let phase = Phase::Reading { position: next };
        Stepped {
            order: Order::Command { command },
            desk: Desk {
                heard,
                count: next,
                sent: command,
                phase,
                ..self
            },
        }
    }
}

// One step: what is to be done after an answer, and the desk then.
pub fn step(desk: Desk, answer: u8) -> Stepped
    ensures { Steps desk answer result }
{
    match desk.phase {
        Phase::Reading { position } => desk.hear(position, answer),
        Phase::Driving { state } => desk.drive(state, answer),
        Phase::Home { after } => Stepped {
            order: Order::Home { after },
            desk,
        },
        Phase::Stranger { at } => Stepped {
            order: Order::Stranger { at },
            desk,
        },
    }
}
