// The tables that fold places which must stand in one state of any unit that gives the right
// answers. A marked place before an unmarked one is represented by the first such place of its
// state. From a representative, the next place is represented by the one after the alternative that
// has the same command: alternatives are places that are represented alike and have different
// commands.
ghost use Rattle.std.specs.Prelude.{◌≡◌, ℕ, ◌≤◌, ◌<◌, length, get_or};
ghost use Rattle.machine.specs.Limits.{most_sequence};
ghost use Rattle.certify.specs.Folding.{Rising, Reached, Rooted, Advanced};

use machine::Machine;

// As many states as a byte can name, so that no state is out of range.
pub const BYTE_STATES: usize = 256;

// A sequence and its tables: the next alternative of a place, and the place that represents a
// state, plus 1; 0 for none. With `Option<u16>` the first would take 41 KB more of the 64 KiB of
// stack; the second holds the same numbers.
#[derive(Drop)]
pub struct Tables<'a> {
    pub xs: &'a [u8],
    pub alt: [u16; Machine::SEQUENCE],
    pub root: [u16; BYTE_STATES],
    ghost few: { length xs.now ≤ most_sequence },
    ghost rising: { Rising xs.now alt },
}

impl Tables<'_> {
    // The alternative of r with command c, or the last alternative. A `while`: each tells the next.
    pub fn alternative(&self, r: usize, c: u8) -> usize
        requires { r < length self.now.xs.now }
        ensures { Reached self.now.xs.now self.now.alt c r result }
    {
        let mut v = r;
        while self.xs[v] != c {
            let u = usize::from(self.alt[v]);
            if u == 0 {
                return v;
            }
            v = u;
        }
        v
    }

    // Where t + 1 is represented, r being t's representative: t becomes an alternative where none
    // has its command.
    pub fn advance(&mut self, r: usize, t: usize) -> usize
        requires r_low { r ≤ t }
        requires t_in_bounds { t < length self.old.xs.now }
        requires alternatives_low { (v : ℕ) → get_or self.old.alt v 0 ≤ t }
        ensures advanced { Advanced self.old.xs.now self.old.alt r t self.new.alt result }
        ensures same_xs { self.new.xs ≡ self.old.xs }
        ensures same_root { self.new.root ≡ self.old.root }
    {
        let c = self.xs[t];
        let v = self.alternative(r, c);
        if self.xs[v] != c {
            self.alt[v] = t as u16;
            return t + 1;
        }
        v + 1
    }
}

// The place that represents the state s, which becomes t where there is none yet.
pub fn represent(root: &mut [u16; BYTE_STATES], s: u8, t: usize) -> usize
    requires { t < most_sequence }
    ensures { Rooted root.old s t root.new result }
{
    if let Some(r) = usize::from(root[usize::from(s)]).checked_sub(1) {
        return r;
    }
    root[usize::from(s)] = (t + 1) as u16;
    t
}
