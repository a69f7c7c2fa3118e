// The services: the answer of each to its fields.
use crate::answers::{
    begun, buffer, certified, checked, entry, handed, judged, limits, ordered, sought, transferred,
    written,
};
use crate::fields::{Case, Payloads};
use crate::output::Output;
use build::{build, transfer};
use certify::certify;
use desk::{Desk, start, step};
use judge::judge;
use machine::{Machine, house_entry, load_sheet};
use sheet::{Needs, Refusal, part_of, read, refusal};
use std::fmt;
use word::find_word;
use writer::{Wanted, write};

// What every byte of a buffer is before it is lent.
const BEFORE: u8 = 238;

// So many bytes of a buffer, as they are before they are lent.
fn lent_room(lent: &mut [u8], size: usize) -> &mut [u8] {
    let end = size.min(lent.len());
    let room = &mut lent[..end];
    room.fill(BEFORE);
    room
}

fn part_case(kind: u16, sheet: &[u8], out: &mut Output<'_>) -> fmt::Result {
    let place = part_of(sheet, kind);
    handed(place.from, read(sheet, kind), out)
}

fn transfer_case(from: u8, to: u8, sheet: &[u8], out: &mut Output<'_>) -> fmt::Result {
    let needs = Needs {
        word: false,
        sequence: false,
        answers: false,
    };
    let loaded = load_sheet(sheet, needs);
    match loaded.check {
        Ok(()) => transferred(transfer(&loaded.machine, from, to), out),
        Err(_) => checked(loaded.check, out),
    }
}

// The desk's order after each answer.
fn orders(desk: Desk, answers: &[u8], out: &mut Output<'_>) -> fmt::Result {
    let mut turn = desk;
    for answer in answers {
        let stepped = step(turn, *answer);
        ordered(stepped.order, out)?;
        turn = stepped.desk;
    }
    Ok(())
}

// The first command and the orders behind it; a refusal has none.
fn desk_case(sheet: &[u8], answers: &[u8], out: &mut Output<'_>) -> fmt::Result {
    let started = start(sheet);
    begun(started.first, out)?;
    match started.first {
        Ok(_) => orders(started.desk, answers, out),
        Err(_) => Ok(()),
    }
}

// What is wanted in a sheet of these payloads.
fn wanted_of(payloads: Payloads<'_>) -> Wanted {
    match (payloads.sequence, payloads.answers) {
        (_, Some(_)) => Wanted::Answers,
        (Some(_), None) => Wanted::Sequence,
        (None, None) => Wanted::Word,
    }
}

// The sheet of its payloads; those that are not there are empty.
fn write_sheet(payloads: Payloads<'_>, room: &mut [u8]) -> Result<usize, Refusal> {
    write(
        wanted_of(payloads),
        payloads.machine,
        payloads.word,
        payloads.sequence.unwrap_or(&[]),
        payloads.answers.unwrap_or(&[]),
        room,
    )
}

// The answer to a case; what a service writes lies in a lent buffer. An arm for each case: they take
// different fields, which no common trait or closure could.
pub(crate) fn perform(case: Case<'_>, lent: &mut [u8], out: &mut Output<'_>) -> fmt::Result {
    match case {
        Case::Judge(size, sheet) => {
            let room = lent_room(lent, size);
            judged(judge(sheet, room), out)?;
            buffer(room, out)
        }
        Case::Certify(size, sheet) => {
            let room = lent_room(lent, size);
            certified(certify(sheet, room), out)?;
            buffer(room, out)
        }
        Case::Build(size, sheet) => {
            let room = lent_room(lent, size);
            written("built ", build(sheet, room), out)?;
            buffer(room, out)
        }
        Case::Refusal(kind, sheet) => checked(refusal(sheet, kind), out),
        Case::Part(kind, sheet) => part_case(kind, sheet, out),
        Case::Transfer(from, to, sheet) => transfer_case(from, to, sheet, out),
        Case::Desk(sheet, answers) => desk_case(sheet, answers, out),
        Case::Word(sheet) => sought(find_word(sheet), out),
        Case::Write(size, payloads) => {
            let room = lent_room(lent, size);
            written("written ", write_sheet(payloads, room), out)?;
            buffer(room, out)
        }
        Case::House(state, command) => entry(house_entry(state, command), out),
        Case::Limits => limits(Machine::limits(), out),
    }
}
