// The one pass over a sheet: its records from the front.
ghost use Rattle.std.specs.Prelude.{◌≡◌, ◌≤◌, length};
ghost use Rattle.sheet.specs.Format.{standard, longest};
ghost use Rattle.sheet.specs.Reader.{whole_reading};

use crate::check::{Check, Refusal};
use crate::format::Role;
use crate::record::{HEADER, Records, check_record, rank, record_at, with_record};

// What one pass over a sheet gives for a service: the first of causes 1 and 2, and the record of each
// role, none where the sheet is too long or a record has a cause. No `Result` of the records: where one
// is missing, `reading_of` has the others.
#[derive(Clone, Copy, Debug, PartialEq, Eq)]
pub struct Reading {
    pub check: Check,
    pub records: Records,
}

// Passes over the whole sheet, which is not too long: what is missing is not looked at here. A `while`,
// since each record tells where the next begins.
pub fn parse(s: &[u8]) -> Result<Records, Refusal>
    requires { length s.now ≤ longest }
    ensures { result ≡ whole_reading standard s.now }
{
    let mut at = 0;
    let mut last = 0;
    let mut records = Records::default();
    while at < s.len() {
        let r = record_at(s, at);
        check_record(s.len(), r, last)?;
        records = with_record(records, r);
        last = rank(Role::from(r.kind));
        at += HEADER + r.size as usize;
    }
    Ok(records)
}
