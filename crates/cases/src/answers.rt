// The answers of the services, as text.
use crate::buffers::front;
use crate::bytes::Bytes;
use crate::output::Output;
use build::Path;
use certify::Certification;
use desk::Order;
use judge::Judgement;
use machine::{Entry, Limits};
use sheet::{Check, Refusal};
use std::fmt;
use std::fmt::Write;
use word::Searched;

// A buffer, or what reading gave, behind its bar.
pub(crate) fn buffer(part: &[u8], out: &mut Output<'_>) -> fmt::Result {
    write!(out, " | {}", Bytes(part))
}

fn refused(refusal: Refusal, out: &mut Output<'_>) -> fmt::Result {
    write!(out, "refused {} at {}", refusal.number, refusal.place)
}

pub(crate) fn judged(answer: Result<Judgement, Refusal>, out: &mut Output<'_>) -> fmt::Result {
    match answer {
        Ok(Judgement::Pass { size, end }) => write!(out, "pass {size} end {end}"),
        Ok(
            Judgement::Wrong {
                place,
                specified,
                given,
            },
        ) => write!(out, "wrong at {place} want {specified} got {given}"),
        Ok(Judgement::Unheard { place }) => write!(out, "unheard at {place}"),
        Ok(Judgement::Unfinished { number }) => write!(out, "unfinished {number}"),
        Err(refusal) => refused(refusal, out),
    }
}

pub(crate) fn certified(
    answer: Result<Certification, Refusal>,
    out: &mut Output<'_>,
) -> fmt::Result {
    match answer {
        Ok(Certification::Certified { recognised }) => write!(out, "certified {recognised}"),
        Ok(Certification::Open { recognised, number }) => {
            write!(out, "open {number} recognised {recognised}")
        }
        Err(refusal) => refused(refusal, out),
    }
}

// The answer of a service that writes, with its word for having done so and a space.
pub(crate) fn written(
    done: &str,
    answer: Result<usize, Refusal>,
    out: &mut Output<'_>,
) -> fmt::Result {
    match answer {
        Ok(length) => write!(out, "{done}{length}"),
        Err(refusal) => refused(refusal, out),
    }
}

// A refusal, or the word for none.
pub(crate) fn checked(check: Check, out: &mut Output<'_>) -> fmt::Result {
    match check {
        Ok(()) => write!(out, "none"),
        Err(refusal) => refused(refusal, out),
    }
}

// Where a part lies, and its bytes.
pub(crate) fn handed(from: usize, part: &[u8], out: &mut Output<'_>) -> fmt::Result {
    write!(out, "from {from} size {}", part.len())?;
    buffer(part, out)
}

pub(crate) fn transferred(path: Option<Path>, out: &mut Output<'_>) -> fmt::Result {
    match path {
        Some(path) => write!(out, "commands {}", Bytes(path.as_slice())),
        None => write!(out, "none"),
    }
}

// The desk's first command, or its refusal.
pub(crate) fn begun(first: Result<u8, Refusal>, out: &mut Output<'_>) -> fmt::Result {
    match first {
        Ok(command) => write!(out, "command {command}"),
        Err(refusal) => refused(refusal, out),
    }
}

// An order behind another.
pub(crate) fn ordered(order: Order, out: &mut Output<'_>) -> fmt::Result {
    match order {
        Order::Command { command } => write!(out, " command {command}"),
        Order::Home { after } => write!(out, " home after {after}"),
        Order::Stranger { at } => write!(out, " stranger at {at}"),
    }
}

// What the search for a word gave.
pub(crate) fn sought(searched: Searched, out: &mut Output<'_>) -> fmt::Result {
    match searched.answer {
        Ok(Some(length)) => write!(out, "word {}", Bytes(front(&searched.word, length))),
        Ok(None) => write!(out, "none"),
        Err(refusal) => refused(refusal, out),
    }
}

pub(crate) fn entry(e: Entry, out: &mut Output<'_>) -> fmt::Result {
    write!(out, "next {} answer {}", e.next, e.answer)
}

pub(crate) fn limits(l: Limits, out: &mut Output<'_>) -> fmt::Result {
    write!(
        out,
        "states {} commands {} word {} sequence {}",
        l.states, l.commands, l.word, l.sequence
    )
}
