// The causes of the wanted parts in order. But for 6, a place is an offset in the sheet that a success
// would write, where each record starts at the end of the one before it.
ghost use Rattle.std.specs.Prelude.{◌≡◌, ◌+◌, ◌≤◌, length};
ghost use Rattle.sheet.specs.Check.{◌else◌, first_cause};
ghost use Rattle.sheet.specs.Format.{standard, header, offset};
ghost use Rattle.machine.specs.Limits.{most_machine};
ghost use Rattle.machine.specs.Machine.{meaning};
ghost use Rattle.machine.specs.Causes.{sequence_causes, word_causes, cause10};
ghost use Rattle.writer.specs.Parts.{lent_parts};
ghost use Rattle.writer.specs.Writer.{later_causes, part_causes};

use crate::parts::Parts;
use crate::wanted::Wanted;
use machine::{Machine, sequence_check, table_check, word_check};
use sheet::{Check, HEADER, refuse};

impl Parts<'_> {
    // Causes 7 and 10, of the sequence, whose record starts at an offset, and of its answers.
    fn answers_check(&self, m: &Machine, at: u32) -> Check
        ensures { result ≡ (first_cause (sequence_causes (meaning m.now) at self.now.sequence.now)
            else cause10 (offset at (length self.now.sequence.now))
            self.now.sequence.now self.now.answers.now) }
    {
        sequence_check(m, at, self.sequence)?;
        let next = at as usize + HEADER + self.sequence.len();
        refuse(10, next, self.sequence.len() < self.answers.len())
    }

    // The causes of sequence and answers, where they are wanted.
    fn later_check(&self, wanted: Wanted, m: &Machine, at: u32) -> Check
        ensures { result ≡ first_cause (later_causes wanted (meaning m.now) at self.now.sequence.now
            self.now.answers.now) }
    {
        match wanted {
            Wanted::Word => Ok(()),
            Wanted::Sequence => sequence_check(m, at, self.sequence),
            Wanted::Answers => self.answers_check(m, at),
        }
    }

    // The causes of the word, whose record starts at an offset, and of what is wanted behind it.
    fn word_and_later(&self, wanted: Wanted, m: &Machine, at: u32) -> Check
        requires { at ≤ header + most_machine standard }
        ensures { result ≡ (first_cause (word_causes (meaning m.now) at self.now.word.now)
            else first_cause (later_causes wanted (meaning m.now) (offset at (length self.now.word.now))
            self.now.sequence.now self.now.answers.now)) }
    {
        word_check(m, at, self.word)?;
        let next = at as usize + HEADER + self.word.len();
        self.later_check(wanted, m, next as u32)
    }

    // All of them, the machine's first.
    pub fn check(&self, wanted: Wanted) -> Check
        ensures { result ≡ first_cause (part_causes wanted (lent_parts self.now)) }
    {
        table_check(0, self.machine)?;
        let m = Machine::load(self.machine);
        let next = HEADER + self.machine.len();
        self.word_and_later(wanted, &m, next as u32)
    }
}
