// The causes of loading and 8 of a sheet, its machine, and the table of the transfers B(s).
ghost use Rattle.std.specs.Prelude.{◌≡◌};
ghost use Rattle.sheet.specs.Check.{Clear};
ghost use Rattle.sheet.specs.Reader.{word_in};
ghost use Rattle.machine.specs.Machine.{meaning};
ghost use Rattle.build.specs.Table.{Filled};
ghost use Rattle.machine.specs.Loading.{LoadedBy};
ghost use Rattle.build.specs.Building.{connected_causes};

use crate::table::{ROWS, connect};
use machine::{Loaded, load_sheet};
use sheet::{Needs, payload};

// Loads a sheet, and fills the table of transfers unless the sheet is refused.
pub fn load_table(sheet: &[u8], rows: &mut [u8; ROWS]) -> Loaded
    ensures loaded_by { LoadedBy (connected_causes sheet.now) sheet.now result }
    ensures filled { result.check ≡ Clear
        → Filled (meaning result.machine) (word_in sheet.now) (meaning result.machine).n
        rows.new }
{
    let needs = Needs {
        word: true,
        sequence: false,
        answers: false,
    };
    let loaded = load_sheet(sheet, needs);
    match loaded.check {
        Ok(()) => Loaded {
            check: connect(&loaded.machine, payload(sheet, loaded.records.word), rows),
            ..loaded
        },
        Err(_) => loaded,
    }
}

// Loads a sheet for a service that needs a separating word and transfers.
pub fn load_connected(sheet: &[u8]) -> Loaded
    ensures { LoadedBy (connected_causes sheet.now) sheet.now result }
{
    let mut rows = [0u8; ROWS];
    load_table(sheet, &mut rows)
}
