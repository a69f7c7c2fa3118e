// A check's answer, and the number and values of an answer.
ghost use Rattle.std.specs.Prelude.{◌≡◌};
ghost use Rattle.sheet.specs.Check.{refusal◌with◌if◌};
ghost use Rattle.sheet.specs.Values.{refusal_values};

// A refusal: its number and its place. No enum in place of the number: `refuse` and its laws (`present`
// and `place_cause` in specs/Check) hold of every number, and C is told it.
#[derive(Clone, Copy, Debug, PartialEq, Eq)]
pub struct Refusal {
    pub number: u8,
    pub place: usize,
}

// What a check answers: clear, or the refusal.
pub type Check = Result<(), Refusal>;

// The number and values of an answer: its class, which of a refusal is the number, place, a and b. The
// class is a number since C is told it.
#[derive(Clone, Copy, Debug, PartialEq, Eq)]
pub struct Values {
    pub class: u8,
    pub place: usize,
    pub a: usize,
    pub b: usize,
}

impl From<Refusal> for Values {
    ghost from_gives = { λ r v. v ≡ refusal_values r.number r.place };

    fn from(refusal: Refusal) -> Values {
        Values {
            class: refusal.number,
            place: refusal.place,
            a: 0,
            b: 0,
        }
    }
}

// Refuses where the cause is present.
pub fn refuse(number: u8, place: usize, present: bool) -> Check
    ensures { result ≡ (refusal number with place if present) }
{
    if present {
        return Err(Refusal { number, place });
    }
    Ok(())
}
