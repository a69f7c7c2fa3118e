// The causes of loading and 9 of a sheet, and its machine: what every service that certifies begins
// with.
ghost use Rattle.machine.specs.Loading.{LoadedBy};
ghost use Rattle.certify.specs.Certification.{marking_causes};

use machine::{Loaded, load_sheet};
use sheet::{Needs, payload, room_check};

// Loads a sheet for a service that needs machine, word and sequence, a room for the sequence's marks,
// and perhaps the answers.
pub fn load_sequence(sheet: &[u8], answers: bool, room: usize) -> Loaded
    ensures { LoadedBy (marking_causes answers room sheet.now) sheet.now result }
{
    let needs = Needs {
        word: true,
        sequence: true,
        answers,
    };
    let loaded = load_sheet(sheet, needs);
    let xs = payload(sheet, loaded.records.sequence);
    let bytes = xs.len() + 1;
    let check = loaded.check.and(room_check(room, bytes));
    Loaded { check, ..loaded }
}
