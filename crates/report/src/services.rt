// What each service of the bench writes, of the bytes of its sheet.
ghost use Rattle.report.specs.Output.{Writes};
ghost use Rattle.report.specs.Services.{judged, certified, record_read};

use crate::lines::{certify_line, judge_line, refused};
use crate::output::{OUTPUT, Written};
use crate::pieces::print;
use certify::certify;
use judge::judge;
use machine::Machine;
use sheet::{LONGEST, read, refusal};

// The bytes of a buffer for the sheet that is read: one more than the longest sheet has, so that a
// longer one is seen to be too long.
pub const INPUT: usize = LONGEST + 1;

// A mark for each place of the longest sequence.
const MARKS: usize = Machine::SEQUENCE + 1;

// Judges a sheet.
pub fn judge_sheet(sheet: &[u8], out: &mut [u8; OUTPUT]) -> Written
    ensures { Writes (judged sheet.now) out.old out.new result }
{
    let mut marks = [0u8; MARKS];
    let answer = judge(sheet, &mut marks);
    Written::to_output(judge_line(answer, out))
}

// Certifies the sequence of a sheet. One function for this and for judging would take both calls as
// closures, and be longer than either.
pub fn certify_sheet(sheet: &[u8], out: &mut [u8; OUTPUT]) -> Written
    ensures { Writes (certified sheet.now) out.old out.new result }
{
    let mut marks = [0u8; MARKS];
    let answer = certify(sheet, &mut marks);
    Written::to_output(certify_line(answer, out))
}

// Reads the record of a kind.
pub fn read_record(sheet: &[u8], kind: u16, out: &mut [u8; OUTPUT]) -> Written
    ensures { Writes (record_read kind sheet.now) out.old out.new result }
{
    match refusal(sheet, kind) {
        Ok(()) => Written::to_output(print(read(sheet, kind), out)),
        Err(refusal) => refused(refusal, out),
    }
}
