// The sheets that the bench writes: the lent sheet's records as they are with the word that was
// found or the sequence that was built as the next one, those of the writer, and the house unit's.
ghost use Rattle.std.specs.Prelude.{◌+◌, ◌≤◌, ◌≡◌, [], ◌∷◌, length};
ghost use Rattle.std.proofs.Math.Option.{some};
ghost use Rattle.sheet.specs.Format.{standard, header, longest};
ghost use Rattle.sheet.specs.Check.{first_cause};
ghost use Rattle.sheet.specs.Promise.{Writes as Promise};
ghost use Rattle.sheet.specs.Joining.{joined, fresh};
ghost use Rattle.build.specs.Building.{connected_causes};
ghost use Rattle.writer.specs.Parts.{parts_of};
ghost use Rattle.report.specs.Lines.{none_line};
ghost use Rattle.report.specs.Pieces.{WordRequires, PutsNext};
ghost use Rattle.report.specs.Output.{on_error, Writes};
ghost use Rattle.report.specs.Sheets.{built_sheet};
ghost use Rattle.report.specs.Services.{found_output, searched, built, house_written};
ghost use Rattle.report.specs.Services.{sheet_written, answers_written};

use crate::lines::{refused, to_streams};
use crate::output::{OUTPUT, Written};
use crate::pieces::{Cursor, print};
use build::build_with_records;
use machine::{HOUSE_WORD, Machine, house_payload};
use sheet::{Record, Refusal, Role, new_kind, payload, record_or};
use word::{Searched, find_word_with_records};
use writer::{Wanted, add_answers, write};

// The bytes of a buffer for a part of a sheet that is read: one more than the longest part has, so
// that a longer one is seen to be too long.
pub const PART: usize = Machine::SEQUENCE + 1;

// Puts the records of a machine and a word.
fn put_two(kind: u16, machine: &[u8], word: &[u8], sheet: &mut Cursor)
    requires short { header + length machine.now + header + length word.now ≤ longest }
    requires room { sheet.old.end + longest ≤ length sheet.old.buffer.now }
    ensures next { PutsNext (joined ((kind, machine.now) ∷ fresh standard.word word.now ∷ []))
        sheet.old sheet.new }
    ensures value { sheet.new.end
        ≡ sheet.old.end + (header + length machine.now + header + length word.now) }
{
    sheet.put_record(kind, machine);
    sheet.put_role(Role::Word, word);
}

// A sheet's machine, by its record, with a word and, behind them, the word's line for standard error.
fn with_word(sheet: &[u8], machine: Option<Record>, word: &[u8], out: &mut [u8; OUTPUT]) -> Written
    requires { WordRequires sheet.now machine word.now }
    ensures { Writes (found_output sheet.now (some word.now)) out.old out.new result }
{
    let mut both = Cursor::new(out);
    put_two(
        record_or(machine).kind,
        payload(sheet, machine),
        word,
        &mut both,
    );
    let size = both.end;
    both.put(b"WORD");
    both.put_list(word);
    both.put(b"\n");
    Written {
        out: size,
        end: both.end,
    }
}

// That there is no word, for standard error.
fn without_word(out: &mut [u8; OUTPUT]) -> Written
    ensures { Writes (on_error none_line) out.old out.new result }
{
    Written::to_error(print(b"NONE of 1 to 6 commands\n", out))
}

// Finds a word for a sheet's machine: the sheet that carries it, and its line; or a line alone.
pub fn word_sheet(sheet: &[u8], out: &mut [u8; OUTPUT]) -> Written
    ensures { Writes (searched sheet.now) out.old out.new result }
{
    let (Searched { answer, word }, records) = find_word_with_records(sheet);
    match answer {
        Ok(Some(n)) => with_word(sheet, records.machine, &word[..n], out),
        Ok(None) => without_word(out),
        Err(refusal) => refused(refusal, out),
    }
}

// Builds the sequence of a sheet, and writes the sheet that carries it.
fn write_built(sheet: &[u8], out: &mut [u8; OUTPUT]) -> Result<usize, Refusal>
    ensures { Promise (first_cause (connected_causes sheet.now)) (built_sheet sheet.now)
        out.old out.new result }
{
    let mut sequence = [0u8; Machine::SEQUENCE];
    let (built, records) = build_with_records(sheet, &mut sequence);
    let n = built?;
    let mut whole = Cursor::new(out);
    put_two(
        record_or(records.machine).kind,
        payload(sheet, records.machine),
        payload(sheet, records.word),
        &mut whole,
    );
    whole.put_role(Role::Sequence, &sequence[..n]);
    Ok(whole.end)
}

// The sheet that carries what was built, or a refusal's line.
pub fn build_sheet(sheet: &[u8], out: &mut [u8; OUTPUT]) -> Written
    ensures { Writes (built sheet.now) out.old out.new result }
{
    let answer = write_built(sheet, out);
    to_streams(answer, out)
}

// The sheet of the wanted parts, or a refusal's line.
pub fn write_sheet(
    wanted: Wanted,
    machine: &[u8],
    word: &[u8],
    sequence: &[u8],
    answers: &[u8],
    out: &mut [u8; OUTPUT],
) -> Written
    ensures { Writes (sheet_written wanted (parts_of machine.now word.now sequence.now
        answers.now)) out.old out.new result }
{
    let answer = write(wanted, machine, word, sequence, answers, out);
    to_streams(answer, out)
}

// A sheet's machine, word and sequence with these answers, or a refusal's line.
pub fn answers_sheet(sheet: &[u8], answers: &[u8], out: &mut [u8; OUTPUT]) -> Written
    ensures { Writes (answers_written sheet.now answers.now) out.old out.new result }
{
    let answer = add_answers(sheet, answers, out);
    to_streams(answer, out)
}

// The house unit's sheet: its machine and its word. Nothing is refused.
pub fn house_sheet(out: &mut [u8; OUTPUT]) -> Written
    ensures { Writes house_written out.old out.new result }
{
    let table = house_payload();
    let kind = new_kind(Role::Machine);
    let mut house = Cursor::new(out);
    put_two(kind, &table, &HOUSE_WORD, &mut house);
    Written::to_output(house.end)
}
