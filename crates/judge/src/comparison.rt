// The answers given, compared with the specified ones.
ghost use Rattle.std.specs.Prelude.{◌≡◌, Ok};
ghost use Rattle.machine.specs.Machine.{meaning};
ghost use Rattle.judge.specs.Judging.{verdict};
ghost use Rattle.judge.specs.Judging.{difference as difference_at};
ghost use Rattle.judge.specs.Comparison.{CompareRequires};

use crate::answer::Judgement;
use machine::Machine;

// The result where the answer given is not the specified one.
fn difference(place: usize, specified: u8, given: u8) -> Judgement
    ensures { Ok result ≡ difference_at place specified given }
{
    if given == Machine::NO_ANSWER {
        return Judgement::Unheard { place };
    }
    Judgement::Wrong {
        place,
        specified,
        given,
    }
}

// Runs the machine along the sequence as far as there are answers, and stops at the first that
// differs.
#[tactic(auto, using(crate::proofs::Comparing::compared_unfinished))]
pub fn compare(m: &Machine, xs: &[u8], ys: &[u8]) -> Judgement
    requires { CompareRequires (meaning m.now) xs.now ys.now }
    ensures { Ok result ≡ verdict (meaning m.now) xs.now ys.now }
{
    let mut s = m.start;
    for (i, given) in ys.iter().enumerate() {
        let specified = m.answer_to(s, xs[i]);
        if specified != *given {
            return difference(i, specified, *given);
        }
        s = m.next_state(s, xs[i]);
    }
    let number = ys.len();
    if number < xs.len() {
        return Judgement::Unfinished { number };
    }
    let size = number;
    Judgement::Pass { size, end: s }
}
