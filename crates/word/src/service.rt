// The service: finds a separating word for a sheet's machine.
ghost use Rattle.std.specs.Prelude.{◌≡◌};
ghost use Rattle.sheet.specs.Format.{standard};
ghost use Rattle.sheet.specs.Reader.{records_in};
ghost use Rattle.word.specs.Service.{Searches};

use crate::answer::{MOST_SOUGHT, Searched};
use crate::search::shortest_word;
use machine::load_sheet;
use sheet::{Needs, Records};

// Looks for a separating word for a sheet's machine: of those with at most 6 commands the first of
// the shortest, in byte order. Tells the sheet's records too, both of one pass over it.
pub fn find_word_with_records(sheet: &[u8]) -> (Searched, Records)
    ensures searches { Searches sheet.now result.0 }
    ensures records_value { result.1 ≡ records_in standard sheet.now }
{
    let needs = Needs {
        word: false,
        sequence: false,
        answers: false,
    };
    let loaded = load_sheet(sheet, needs);
    let searched = match loaded.check {
        Ok(()) => shortest_word(&loaded.machine),
        Err(refusal) => Searched {
            answer: Err(refusal),
            word: [0u8; MOST_SOUGHT],
        },
    };
    (searched, loaded.records)
}

// Looks for a separating word for a sheet's machine.
pub fn find_word(sheet: &[u8]) -> Searched
    ensures { Searches sheet.now result }
{
    find_word_with_records(sheet).0
}
