// The service: certifies the sequence of a sheet.
ghost use Rattle.std.specs.Prelude.{◌≡◌, ◌+◌, length, Ok};
ghost use Rattle.machine.specs.Limits.{most_sequence};
ghost use Rattle.machine.specs.Machine.{meaning, Proper, Commands};
ghost use Rattle.certify.specs.Marks.{marks as marks_of};
ghost use Rattle.certify.specs.Certification.{outcome, Certifiable, Certifies};

use crate::answer::{Certification, answer_of};
use crate::closure::close;
use crate::loading::load_sequence;
use crate::tally::{count, open_check};
use crate::word::mark_words;
use machine::{Loaded, Machine};
use sheet::{Refusal, payload};

// Marks the recognised places of a sequence, and answers.
fn recognise(m: &Machine, w: &[u8], xs: &[u8], marks: &mut [u8]) -> Certification
    requires proper { Proper (meaning m.now) }
    requires commands { Commands most_sequence (meaning m.now).k xs.now }
    requires marks_len { length marks.old ≡ length xs.now + 1 }
    ensures value { Ok result ≡ outcome (meaning m.now) w.now xs.now }
    ensures marks_after { marks.new ≡ marks_of (meaning m.now) w.now xs.now }
{
    mark_words(w, xs, marks);
    let known = close(m, xs, marks);
    let entries = m.n as usize * m.k as usize;
    let check = open_check(marks, &known, entries);
    let recognised = count(marks);
    answer_of(check, recognised)
}

// Certifies the sequence of a sheet that was loaded for it, where nothing is refused.
pub fn certify_loaded(sheet: &[u8], loaded: Loaded, marks: &mut [u8]) -> Certification
    requires { Certifiable sheet.now (length marks.old) loaded }
    ensures { Certifies sheet.now marks.old marks.new (Ok result) }
{
    let w = payload(sheet, loaded.records.word);
    let xs = payload(sheet, loaded.records.sequence);
    let end = xs.len() + 1;
    let machine = loaded.machine.by_columns();
    recognise(&machine, w, xs, &mut marks[..end])
}

// Certifies the sequence of a sheet and writes its marks into the lent buffer. A refusal writes
// nothing; bytes behind the marks stay as they were.
pub fn certify(sheet: &[u8], marks: &mut [u8]) -> Result<Certification, Refusal>
    ensures { Certifies sheet.now marks.old marks.new result }
{
    let answers = false;
    let loaded = load_sequence(sheet, answers, marks.len());
    loaded.check?;
    Ok(certify_loaded(sheet, loaded, marks))
}
