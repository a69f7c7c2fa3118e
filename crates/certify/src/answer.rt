// What certifying answers where nothing is refused, and the number and values of an answer.
ghost use Rattle.std.specs.Prelude.{◌≡◌, Ok};
ghost use Rattle.certify.specs.Certification.{values_of, answer_of};

use sheet::{Check, Refusal, Values};

// Certified: how many places are recognised. Open: the same, and the open number.
#[derive(Clone, Copy, Debug, PartialEq, Eq)]
pub enum Certification {
    Certified { recognised: usize },
    Open { recognised: usize, number: usize },
}

// Class, place, a and b of an answer.
pub fn values_of(answer: Result<Certification, Refusal>) -> Values
    ensures { result ≡ values_of answer }
{
    match answer {
        Ok(Certification::Certified { recognised }) => Values {
            class: 110,
            place: recognised,
            a: 0,
            b: 0,
        },
        Ok(Certification::Open { recognised, number }) => Values {
            class: 111,
            place: recognised,
            a: 0,
            b: number,
        },
        Err(refusal) => Values::from(refusal),
    }
}

// The answer of cause 11 and the number of recognised places.
pub fn answer_of(check: Check, recognised: usize) -> Certification
    ensures { Ok result ≡ answer_of check recognised }
{
    match check {
        Ok(()) => Certification::Certified { recognised },
        Err(refusal) => Certification::Open {
            recognised,
            number: refusal.place,
        },
    }
}
