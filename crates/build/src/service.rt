// The service: builds the checking sequence of a sheet.
ghost use Rattle.std.specs.Prelude.{◌≡◌, length};
ghost use Rattle.sheet.specs.Check.{Clear};
ghost use Rattle.sheet.specs.Format.{standard};
ghost use Rattle.sheet.specs.Reader.{records_in, word_in};
ghost use Rattle.machine.specs.Machine.{meaning};
ghost use Rattle.machine.specs.Loading.{LoadedBy};
ghost use Rattle.build.specs.Building.{connected_causes, Builds};
ghost use Rattle.build.specs.Table.{Filled};

use crate::loading::load_table;
use crate::table::ROWS;
use crate::writing::Sequence;
use machine::Loaded;
use sheet::{Records, Refusal, payload, room_check};

// Builds the sequence of a sheet that was loaded, with the table of transfers.
fn build_loaded(
    sheet: &[u8],
    loaded: Loaded,
    rows: &[u8],
    buffer: &mut [u8],
) -> Result<usize, Refusal>
    requires loaded_by { LoadedBy (connected_causes sheet.now) sheet.now loaded }
    requires filled { loaded.check ≡ Clear
        → Filled (meaning loaded.machine) (word_in sheet.now) (meaning loaded.machine).n rows.now }
    ensures { Builds sheet.now buffer.old buffer.new result }
{
    loaded.check?;
    let sequence = Sequence {
        machine: loaded.machine,
        word: payload(sheet, loaded.records.word),
        rows,
    };
    // Lent no bytes, it only counts.
    let lent = 0;
    let length = sequence.write(&mut buffer[..lent]);
    room_check(buffer.len(), length)?;
    Ok(sequence.write(buffer))
}

// Builds the checking sequence of a sheet's machine and word into the lent buffer. A refusal writes
// nothing; bytes behind the sequence stay as they were. Tells the sheet's records too, both of one
// pass over it.
pub fn build_with_records(sheet: &[u8], buffer: &mut [u8]) -> (Result<usize, Refusal>, Records)
    ensures builds { Builds sheet.now buffer.old buffer.new result.0 }
    ensures records_value { result.1 ≡ records_in standard sheet.now }
{
    let mut rows = [0u8; ROWS];
    let loaded = load_table(sheet, &mut rows);
    (build_loaded(sheet, loaded, &rows, buffer), loaded.records)
}

// Builds the checking sequence of a sheet.
pub fn build(sheet: &[u8], buffer: &mut [u8]) -> Result<usize, Refusal>
    ensures { Builds sheet.now buffer.old buffer.new result }
{
    build_with_records(sheet, buffer).0
}
