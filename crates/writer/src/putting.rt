// The sheet of the wanted parts: its length, and its records put into a buffer.
ghost use Rattle.std.specs.Prelude.{◌≡◌, ◌≤◌, length};
ghost use Rattle.sheet.specs.Format.{longest};
ghost use Rattle.sheet.specs.Writing.{Puts};
ghost use Rattle.writer.specs.Parts.{lent_parts, sheet_of};

use crate::parts::Parts;
use crate::wanted::Wanted;
use sheet::{HEADER, Role, put_role};

impl Parts<'_> {
    // How many bytes the sheet has, of parts that are no longer than they may be.
    #[tactic(auto, using(crate::proofs::Rows::wanted_long, crate::proofs::Rows::two_inside))]
    pub fn length(&self, wanted: Wanted) -> usize
        requires { length (sheet_of wanted (lent_parts self.now)) ≤ longest }
        ensures { result ≡ length (sheet_of wanted (lent_parts self.now)) }
    {
        let two = 2 * HEADER + self.machine.len() + self.word.len();
        match wanted {
            Wanted::Word => two,
            Wanted::Sequence => two + HEADER + self.sequence.len(),
            Wanted::Answers => two + 2 * HEADER + self.sequence.len() + self.answers.len(),
        }
    }

    // Puts that sheet to the start of a buffer that has room for it; gives the place behind it.
    pub fn put(&self, wanted: Wanted, buffer: &mut [u8]) -> usize
        requires short { length (sheet_of wanted (lent_parts self.now)) ≤ longest }
        requires room { length (sheet_of wanted (lent_parts self.now)) ≤ length buffer.old }
        ensures { Puts buffer.old 0 (sheet_of wanted (lent_parts self.now)) buffer.new result }
    {
        let a = put_role(Role::Machine, self.machine, 0, buffer);
        let b = put_role(Role::Word, self.word, a, buffer);
        match wanted {
            Wanted::Word => b,
            Wanted::Sequence => put_role(Role::Sequence, self.sequence, b, buffer),
            Wanted::Answers => {
                let c = put_role(Role::Sequence, self.sequence, b, buffer);
                put_role(Role::Answers, self.answers, c, buffer)
            }
        }
    }
}
