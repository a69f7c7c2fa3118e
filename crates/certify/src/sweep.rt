// A sweep over the places of a sequence. It carries each mark over to the places that are
// represented alike. What it marks is recognised by rule 2, and where it changes nothing, rule 2
// adds nothing.
ghost use Rattle.std.specs.Prelude.{◌≡◌, ◌+◌, ◌<◌, length};
ghost use Rattle.machine.specs.Limits.{most_entries};
ghost use Rattle.machine.specs.Machine.{meaning};
ghost use Rattle.certify.specs.Sweep.{MergeRequires, Merged, Learnt, NextRequires, NextRepresented};
ghost use Rattle.certify.specs.Sweep.{SweepRequires, Swept};

use crate::chains::{BYTE_STATES, Tables, represent};
use machine::{Machine, entry_at};

// Whether something changed so far, and how many steps may still be spent on following marks: two
// values, neither of which stands for the lack of the other.
#[derive(Clone, Copy)]
pub struct Progress {
    pub changed: bool,
    pub steps: usize,
}

impl Tables<'_> {
    // Makes the marks of t and of cur, which represents it, equal. A mark of cur, which the sweep
    // has passed, is followed at once.
    fn merge(
        &self,
        m: &Machine,
        marks: &mut [u8],
        s: u8,
        cur: usize,
        t: usize,
        p: Progress,
    ) -> Progress
        requires { MergeRequires (meaning m.now) self.now.xs.now marks.old self.now.alt self.now.root
            s cur t }
        ensures { Merged (meaning m.now) self.now.xs.now marks.old cur t p.changed marks.new
            result.changed }
    {
        if marks[cur] == marks[t] {
            return p;
        }
        if marks[cur] == 0 {
            marks[cur] = 1;
            let steps = self.propagate(m, marks, cur, s, p.steps);
            return Progress {
                changed: true,
                steps,
            };
        }
        marks[t] = 1;
        Progress {
            changed: true,
            steps: p.steps,
        }
    }

    // The place that represents t + 1. An unmarked t is represented by cur, a marked one by its
    // state's place; between two marked places nothing is folded.
    fn represent_next(&mut self, marks: &[u8], s: u8, t: usize, cur: usize) -> usize
        requires { NextRequires self.old.xs.now marks.now self.old.alt self.old.root t cur }
        ensures next { NextRepresented self.old.xs.now marks.now self.old.alt self.old.root s t cur
            self.new.alt self.new.root result }
        ensures same_xs { self.new.xs ≡ self.old.xs }
    {
        if marks[t] == 0 {
            return self.advance(cur, t);
        }
        let after = t + 1;
        if marks[after] != 0 {
            return after;
        }
        let r = represent(&mut self.root, s, t);
        self.advance(r, t)
    }
}

// Learns the entry e of place i where i and the next place are marked; marks the next place where
// i is marked and e is known and to be applied. What it is given goes together nowhere else.
fn learn(
    marks: &mut [u8],
    known: &mut [u8; Machine::ENTRIES],
    e: usize,
    i: usize,
    apply: bool,
    changed: bool,
) -> bool
    requires i_in_bounds { i + 1 < length marks.old }
    requires e_lt_most_entries { e < most_entries }
    ensures { Learnt apply marks.old known.old e i changed marks.new known.new result }
{
    if marks[i] == 0 {
        return changed;
    }
    let next = i + 1;
    if marks[next] != 0 {
        if known[e] != 0 {
            return changed;
        }
        known[e] = 1;
        return true;
    }
    if known[e] == 0 {
        return changed;
    }
    if apply {
        marks[next] = 1;
        return true;
    }
    changed
}

// A sweep over all places; whether it marked one or learnt an entry. Known entries are applied
// where that is asked: `apply` is part of one test, which a closure in its place would hide. Known
// entries are bytes, as the marks are that C lends.
pub fn sweep(
    m: &Machine,
    xs: &[u8],
    marks: &mut [u8],
    known: &mut [u8; Machine::ENTRIES],
    apply: bool,
) -> bool
    requires { SweepRequires (meaning m.now) apply xs.now marks.old known.old }
    ensures { Swept (meaning m.now) xs.now marks.old known.old marks.new
        known.new result }
{
    let mut tables = Tables {
        xs,
        alt: [0; Machine::SEQUENCE],
        root: [0; BYTE_STATES],
    };
    let mut p = Progress {
        changed: false,
        steps: xs.len(),
    };
    let mut cur = 0;
    let mut s = m.start;
    for (t, c) in xs.iter().enumerate() {
        let q = tables.merge(m, marks, s, cur, t, p);
        let e = entry_at(m.k, s, *c);
        let changed = learn(marks, known, e, t, apply, q.changed);
        cur = tables.represent_next(marks, s, t, cur);
        p = Progress {
            changed,
            steps: q.steps,
        };
        s = m.next[e];
    }
    let q = tables.merge(m, marks, s, cur, xs.len(), p);
    q.changed
}
