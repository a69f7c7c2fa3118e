// The services: a sheet written of its parts, and answers added to a sheet.
ghost use Rattle.writer.specs.Parts.{parts_of};
ghost use Rattle.writer.specs.Writer.{WritesParts, AddsAnswers};

use crate::parts::Parts;
use crate::wanted::Wanted;
use sheet::{Needs, Refusal, payload, read_sheet, room_check};

// Writes the sheet of the wanted parts into the lent buffer. The other parts have no influence. On a
// refusal, and behind the sheet, the buffer keeps its bytes. The parts come one by one, as the files
// do that hold them.
pub fn write(
    wanted: Wanted,
    machine: &[u8],
    word: &[u8],
    sequence: &[u8],
    answers: &[u8],
    buffer: &mut [u8],
) -> Result<usize, Refusal>
    ensures { WritesParts wanted
        (parts_of machine.now word.now sequence.now answers.now)
        buffer.old buffer.new result }
{
    let parts = Parts {
        machine,
        word,
        sequence,
        answers,
    };
    parts.check(wanted)?;
    room_check(buffer.len(), parts.length(wanted))?;
    Ok(parts.put(wanted, buffer))
}

// Adds answers to a sheet: writes its machine, word and sequence with these answers. Those that it
// had are left out.
pub fn add_answers(sheet: &[u8], answers: &[u8], buffer: &mut [u8]) -> Result<usize, Refusal>
    ensures { AddsAnswers sheet.now answers.now buffer.old buffer.new result }
{
    let needs = Needs {
        word: true,
        sequence: true,
        answers: false,
    };
    let reading = read_sheet(sheet, needs);
    reading.check?;
    let machine = payload(sheet, reading.records.machine);
    let word = payload(sheet, reading.records.word);
    let sequence = payload(sheet, reading.records.sequence);
    write(Wanted::Answers, machine, word, sequence, answers, buffer)
}
