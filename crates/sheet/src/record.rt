// One record of a sheet: its header, causes 1 and 2 at it, and its place among the records by role.
ghost use Rattle.std.specs.Prelude.{◌≡◌, ◌<◌, ◌^◌, get_or};
ghost use Rattle.sheet.specs.Format.{standard, role_of, record_at, cause1, cause2, cause_of, ◌or◌};
ghost use Rattle.sheet.specs.Format.{one_record, ◌or_each◌, of_role};
ghost use Rattle.sheet.specs.Format.{rank as rank_of};

use crate::check::{Check, refuse};
use crate::format::Role;

// The bytes of a record's header: 4 of payload length, 2 of kind.
pub const HEADER: usize = 6;

// A record: where its header starts, its payload's length, and its kind's number.
#[derive(Clone, Copy, Debug, PartialEq, Eq, Default)]
pub struct Record {
    pub start: u32,
    pub size: u32,
    pub kind: u16,
}

// The record of each role, as far as there is one.
#[derive(Clone, Copy, Debug, PartialEq, Eq, Default)]
pub struct Records {
    pub machine: Option<Record>,
    pub word: Option<Record>,
    pub sequence: Option<Record>,
    pub answers: Option<Record>,
}

// The byte at a place, 0 past the end.
pub fn byte(s: &[u8], i: usize) -> u8
    ensures { result ≡ get_or s.now i 0 }
{
    s.get(i).copied().unwrap_or(0)
}

// The record whose header starts at a place.
pub fn record_at(s: &[u8], at: usize) -> Record
    requires { at < 2 ^ 32 }
    ensures { result ≡ record_at s.now at }
{
    let size = [
        byte(s, at),
        byte(s, at + 1),
        byte(s, at + 2),
        byte(s, at + 3),
    ];
    let kind = [byte(s, at + 4), byte(s, at + 5)];
    Record {
        start: at as u32,
        size: u32::from_le_bytes(size),
        kind: u16::from_le_bytes(kind),
    }
}

// The place of a role in the rising order, 0 for an unknown one. No derived order in its place: the
// definitions of a sheet (`rank_of`, `cause2`) compute with this number.
pub fn rank(role: Role) -> u8
    ensures { result ≡ rank_of role }
{
    role as u8
}

// Cause 1: the record's header or payload runs past the end of a sheet of so many bytes.
fn cut(bytes: usize, r: Record) -> Check
    ensures { result ≡ cause1 bytes r }
{
    let start = r.start as usize;
    let size = r.size as usize;
    let body = start + HEADER;
    refuse(1, start, bytes < body || bytes < body + size)
}

// Cause 2: the record's kind is unknown or not above the one before, whose rank is last.
fn misplaced(r: Record, last: u8) -> Check
    ensures { result ≡ cause2 standard r last }
{
    let start = r.start as usize;
    refuse(2, start, rank(Role::from(r.kind)) <= last)
}

// Causes 1 and 2 at a record, 1 before 2.
pub fn check_record(bytes: usize, r: Record, last: u8) -> Check
    ensures { result ≡ cause_of standard bytes r last }
{
    cut(bytes, r).and(misplaced(r, last))
}

// What is found with one record more: it is that of its role where the role has none yet.
pub fn with_record(found: Records, r: Record) -> Records
    ensures { result ≡ (found or_each one_record standard r) }
{
    let one = Some(r);
    match Role::from(r.kind) {
        Role::Unknown => found,
        Role::Machine => Records {
            machine: found.machine.or(one),
            ..found
        },
        Role::Word => Records {
            word: found.word.or(one),
            ..found
        },
        Role::Sequence => Records {
            sequence: found.sequence.or(one),
            ..found
        },
        Role::Answers => Records {
            answers: found.answers.or(one),
            ..found
        },
    }
}

// The record of a role.
fn of_role(records: Records, role: Role) -> Option<Record>
    ensures { result ≡ of_role records role }
{
    match role {
        Role::Unknown => None,
        Role::Machine => records.machine,
        Role::Word => records.word,
        Role::Sequence => records.sequence,
        Role::Answers => records.answers,
    }
}

// The record of the role that a kind has.
pub fn of_kind(records: Records, kind: u16) -> Option<Record>
    ensures { result ≡ of_role records (role_of standard kind) }
{
    of_role(records, Role::from(kind))
}
