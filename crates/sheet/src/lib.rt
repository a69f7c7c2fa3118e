// The byte format of a sheet: records, kinds, checks 1, 2 and 9, the reader, a record's header, and
// bytes put into a buffer.
#![tactic(auto)]

mod check;
mod format;
mod parse;
mod reader;
mod record;
mod writing;

pub use check::{Check, Refusal, Values, refuse};
pub use format::{LONGEST, Role, TABLE, new_kind};
pub use parse::Reading;
pub use reader::{Needs, Part, part_of, payload, read, read_sheet, record_or, refusal};
pub use record::{HEADER, Record, Records, byte};
pub use writing::{header_of, put, put_record, put_role, room_check};
