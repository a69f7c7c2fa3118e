// Rule 1: the places where the word stands. The sequence is passed over once for each command of
// the word, and each pass takes away the marks of the places that have another command there. A
// pass never ends early, so the compiler can make it without a jump that depends on a command.
ghost use Rattle.std.specs.Prelude.{◌≡◌, ℕ, ◌+◌, ◌≤◌, ◌<◌, length};
ghost use Rattle.certify.specs.Marks.{marks_by, occurs_at};
ghost use Rattle.certify.specs.Word.{Begun, Passed};

// Marks the places before count, and no other.
fn begin(count: usize, marks: &mut [u8])
    requires { count ≤ length marks.old }
    ensures { Begun count marks.old marks.new }
{
    marks[..count].fill(1);
    marks[count..].fill(0);
}

// Takes away the marks of those places before count that have another command than c, further
// commands on. The marks behind stay, of which `Passed` speaks too.
fn pass(xs: &[u8], further: usize, c: u8, count: usize, marks: &mut [u8])
    requires by_index { (p : ℕ) → p < count → further + p < length xs.now }
    requires count_in_bounds { count ≤ length marks.old }
    ensures { Passed xs.now further c count marks.old marks.new }
{
    for p in 0..count {
        marks[p] &= u8::from(xs[further + p] == c);
    }
}

// Writes a mark for each place: 1 where the word stands, else 0. The word can stand only at a place
// that has its whole length behind it.
pub fn mark_words(w: &[u8], xs: &[u8], marks: &mut [u8])
    requires { length marks.old ≡ length xs.now + 1 }
    ensures { marks.new ≡ marks_by xs.now (occurs_at w.now xs.now) }
{
    let count = (xs.len() + 1).saturating_sub(w.len());
    begin(count, marks);
    for (j, c) in w.iter().enumerate() {
        pass(xs, j, *c, count, marks);
    }
}
