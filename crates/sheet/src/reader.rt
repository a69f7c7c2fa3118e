// Checks 1 and 2 of a whole sheet, and the reader.
ghost use Rattle.std.specs.Prelude.{◌≡◌, [], ◌∷◌, ◌+◌, ◌≤◌, length};
ghost use Rattle.sheet.specs.Check.{refusal◌with◌if◌};
ghost use Rattle.sheet.specs.Format.{standard};
ghost use Rattle.sheet.specs.Reader.{too_long, whole_reading, found_in, lacks_needed, reading_of, refusal_of};
ghost use Rattle.sheet.specs.Reader.{seen, handed, part as part_of, record_or, part_within};
ghost use Rattle.sheet.specs.Values.{Returns, values_of};

use crate::check::{Check, Refusal, refuse};
use crate::format::LONGEST;
use crate::parse::{Reading, parse};
use crate::record::{HEADER, Record, Records, of_kind};

// A part of a sheet: where it starts and its length.
#[derive(Clone, Copy, Debug, PartialEq, Eq)]
pub struct Part {
    pub from: usize,
    pub size: usize,
}

// The roles that a service on a machine needs besides the machine.
#[derive(Clone, Copy, Debug, PartialEq, Eq)]
pub struct Needs {
    pub word: bool,
    pub sequence: bool,
    pub answers: bool,
}

fn too_long(sheet: &[u8]) -> Check
    ensures { result ≡ too_long standard sheet.now }
{
    refuse(1, LONGEST, LONGEST < sheet.len())
}

// Cause 2 of a sheet of so many bytes: a record that is wanted is missing.
fn missing_check(bytes: usize, missing: bool) -> Check
    ensures { result ≡ (refusal 2 with bytes if missing) }
{
    refuse(2, bytes, missing)
}

// The records, or the first of causes 1 and 2 but for what is missing.
fn read_whole(sheet: &[u8]) -> Result<Records, Refusal>
    ensures { result ≡ whole_reading standard sheet.now }
{
    too_long(sheet)?;
    parse(sheet)
}

// Whether the record of a needed role is missing.
fn lacks_needed(needs: Needs, records: Records) -> bool
    ensures { result ≡ lacks_needed needs records }
{
    records.machine.is_none()
        || needs.word && records.word.is_none()
        || needs.sequence && records.sequence.is_none()
        || needs.answers && records.answers.is_none()
}

// Reads a sheet in one pass, for a service that needs the machine and these roles besides.
pub fn read_sheet(sheet: &[u8], needs: Needs) -> Reading
    ensures { result ≡ reading_of standard needs sheet.now }
{
    match read_whole(sheet) {
        Ok(records) => Reading {
            check: missing_check(sheet.len(), lacks_needed(needs, records)),
            records,
        },
        Err(refusal) => Reading {
            check: Err(refusal),
            records: Records::default(),
        },
    }
}

// The record that was found, an empty one where there is none.
pub fn record_or(found: Option<Record>) -> Record
    ensures { result ≡ record_or found }
{
    found.unwrap_or_default()
}

// Where the payload of a record lies; the empty part at the sheet's start where there is none, or
// the sheet does not hold it.
fn part_within(sheet: &[u8], found: Option<Record>) -> Part
    ensures value { result ≡ part_within sheet.now found }
    ensures inside { result.from + result.size ≤ length sheet.now }
{
    let empty = Part { from: 0, size: 0 };
    let Some(r) = found else {
        return empty;
    };
    let from = r.start as usize + HEADER;
    let size = r.size as usize;
    if sheet.len() < from + size {
        return empty;
    }
    Part { from, size }
}

// The payload of a record that was read, as a part of the sheet.
pub fn payload(sheet: &[u8], found: Option<Record>) -> &[u8]
    ensures { seen result ≡ handed sheet.entry (part_within sheet.now found) }
{
    let Part { from, size } = part_within(sheet, found);
    &sheet[from..from + size]
}

// The record of a kind, where reading it is not refused.
fn find(sheet: &[u8], kind: u16) -> Option<Record>
    ensures { result ≡ found_in standard (kind ∷ []) sheet.now }
{
    match read_whole(sheet) {
        Ok(records) => of_kind(records, kind),
        Err(_) => None,
    }
}

// The refusal's number and place of reading a kind, or that there is none.
pub fn refusal(sheet: &[u8], kind: u16) -> Check
    ensures { Returns values_of (refusal_of standard (kind ∷ []) sheet.now) result }
{
    let records = read_whole(sheet)?;
    missing_check(sheet.len(), of_kind(records, kind).is_none())
}

// Where the wanted record's payload lies: the empty part at the sheet's start on a refusal.
pub fn part_of(sheet: &[u8], kind: u16) -> Part
    ensures value { result ≡ part_of standard (kind ∷ []) sheet.now }
    ensures inside { result.from + result.size ≤ length sheet.now }
{
    part_within(sheet, find(sheet, kind))
}

// The part of the sheet that holds the wanted record, its header left out; on a refusal the empty
// part at the sheet's start.
pub fn read(sheet: &[u8], kind: u16) -> &[u8]
    ensures { seen result ≡ handed sheet.entry (part_of standard (kind ∷ []) sheet.now) }
{
    payload(sheet, find(sheet, kind))
}
