// The service: judges the answers of a sheet.
ghost use Rattle.judge.specs.Judging.{Judges, Identity};

use crate::answer::Judgement;
use crate::comparison::compare;
use certify::{Certification, certify_loaded, load_sequence};
use sheet::{Refusal, payload, record_or, refuse};

// Judges the answers of a sheet to its sequence and writes the marks of certifying into the lent
// buffer. A refusal other than 11 writes nothing; bytes behind the marks stay as they were.
pub fn judge(sheet: &[u8], marks: &mut [u8]) -> Result<Judgement, Refusal>
    ensures judges { Judges sheet.now marks.old marks.new result }
    ensures identity { Identity sheet.now result }
{
    let answers = true;
    let loaded = load_sequence(sheet, answers, marks.len());
    let records = loaded.records;
    let machine = loaded.machine.by_columns();
    let xs = payload(sheet, records.sequence);
    let ys = payload(sheet, records.answers);
    let start = record_or(records.answers).start as usize;
    let ten = refuse(10, start, xs.len() < ys.len());
    loaded.check.and(ten)?;
    match certify_loaded(sheet, loaded, marks) {
        Certification::Certified { recognised: _ } => Ok(compare(&machine, xs, ys)),
        Certification::Open {
            recognised: _,
            number,
        } => Err(Refusal {
            number: 11,
            place: number,
        }),
    }
}
