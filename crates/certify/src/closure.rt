// Sweeping until nothing changes, or until every entry is known: the recognised places, and the
// verified entries.
ghost use Rattle.std.specs.Prelude.{◌≡◌, true, length};
ghost use Rattle.machine.specs.Machine.{meaning};
ghost use Rattle.certify.specs.Marks.{Bits};
ghost use Rattle.certify.specs.Sweep.{AllKnown, Behind, CloseRequires, Closed};

use crate::sweep::sweep;
use machine::Machine;

// Whether all entries are known.
fn all_known(known: &[u8]) -> bool
    ensures { result ≡ true → AllKnown known.now (length known.now) }
{
    known.iter().all(|entry| *entry != 0)
}

// Marks every place behind a marked one.
fn mark_behind(marks: &mut [u8])
    requires { Bits marks.old }
    ensures { Behind marks.old marks.new }
{
    if let Some(first) = marks.iter().position(|mark| *mark == 1) {
        marks[first..].fill(1);
    }
}

// Closes the marks under rule 2; the entries that are then verified. The first sweep applies no
// known entry: that plays no part in the result, but saves sweeps on built sequences. Once every
// entry is known, each place behind a marked one is recognised, and no further sweep is needed. It
// stays a function of its own when compiled, so that the time of its loops does not depend on the
// code around its call. Machine, sequence and marks are no struct: the marks alone are lent to be
// written.
#[inline(never)]
pub fn close(m: &Machine, xs: &[u8], marks: &mut [u8]) -> [u8; Machine::ENTRIES]
    requires { CloseRequires (meaning m.now) xs.now marks.old }
    ensures { Closed (meaning m.now) xs.now marks.old marks.new result }
{
    let entries = m.n as usize * m.k as usize;
    let mut known = [0u8; Machine::ENTRIES];
    let mut apply = false;
    let mut changed = true;
    while changed {
        changed = sweep(m, xs, marks, &mut known, apply);
        if all_known(&known[..entries]) {
            mark_behind(marks);
            return known;
        }
        apply = true;
    }
    known
}
