// What judging answers where nothing is refused, and the number and values of an answer.
ghost use Rattle.std.specs.Prelude.{◌≡◌};
ghost use Rattle.judge.specs.Judging.{values_of};

use sheet::{Refusal, Values};

// Pass with the number of commands and the end state; wrong with the place of the first answer that
// is not the specified one, what was specified there and what was given; unheard with that place
// where no answer came there; unfinished with the number of answers.
#[derive(Clone, Copy, Debug, PartialEq, Eq)]
pub enum Judgement {
    Pass {
        size: usize,
        end: u8,
    },
    Wrong {
        place: usize,
        specified: u8,
        given: u8,
    },
    Unheard {
        place: usize,
    },
    Unfinished {
        number: usize,
    },
}

// Class, place, a and b of an answer.
pub fn values_of(answer: Result<Judgement, Refusal>) -> Values
    ensures { result ≡ values_of answer }
{
    match answer {
        Ok(Judgement::Pass { size, end }) => Values {
            class: 100,
            place: size,
            a: 0,
            b: end as usize,
        },
        Ok(
            Judgement::Wrong {
                place,
                specified,
                given,
            },
        ) => Values {
            class: 101,
            place,
            a: specified as usize,
            b: given as usize,
        },
        Ok(Judgement::Unheard { place }) => Values {
            class: 103,
            place,
            a: 0,
            b: 0,
        },
        Ok(Judgement::Unfinished { number }) => Values {
            class: 102,
            place: number,
            a: 0,
            b: 0,
        },
        Err(refusal) => Values::from(refusal),
    }
}
