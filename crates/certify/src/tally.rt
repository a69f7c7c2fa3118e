// The number of recognised places, and the open number.
ghost use Rattle.std.specs.Prelude.{◌≡◌, ◌≤◌, ◌<◌, length};
ghost use Rattle.sheet.specs.Check.{first};
ghost use Rattle.machine.specs.Limits.{most_entries};
ghost use Rattle.certify.specs.Marks.{count as count_of};
ghost use Rattle.certify.specs.Certification.Program.{unknown_at, open_by};

use machine::Machine;
use sheet::{Check, refuse};

// How many marks are 1. A filter would take a jump that depends on each mark.
pub fn count(marks: &[u8]) -> usize
    ensures { result ≡ count_of marks.now }
{
    let mut n = 0;
    for mark in marks {
        n += usize::from(*mark == 1);
    }
    n
}

// The least entry that is not known, as cause 11; the machine has the first `entries` of the array. A
// check, since the laws of causes then hold of it.
fn least_unknown(known: &[u8; Machine::ENTRIES], entries: usize) -> Check
    requires { entries ≤ most_entries }
    ensures { result ≡ first entries (unknown_at known.now) }
{
    for e in 0..entries {
        let number = 1 + e;
        refuse(11, number, known[e] == 0)?;
    }
    Ok(())
}

// The open number as cause 11: 0 where place 0 is not marked, else that of the least entry.
pub fn open_check(marks: &[u8], known: &[u8; Machine::ENTRIES], entries: usize) -> Check
    requires some_marks { 0 < length marks.now }
    requires entries_le_most_entries { entries ≤ most_entries }
    ensures { result ≡ open_by marks.now known.now entries }
{
    refuse(11, 0, marks[0] != 1)?;
    least_unknown(known, entries)
}
