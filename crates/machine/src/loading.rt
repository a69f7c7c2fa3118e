// The causes of loading a sheet, its machine and its records: what every service on a machine begins
// with.
ghost use Rattle.std.specs.Prelude.{◌≡◌};
ghost use Rattle.sheet.specs.Check.{first_cause};
ghost use Rattle.sheet.specs.Format.{standard};
ghost use Rattle.sheet.specs.Reader.{when, reading_of};
ghost use Rattle.machine.specs.Machine.{meaning};
ghost use Rattle.machine.specs.Causes.{held, word_causes_in, sequence_causes_in, machine_causes, load_causes};
ghost use Rattle.machine.specs.Loading.{LoadedBy, NeededRequires};

use crate::checks::{sequence_check, table_check, word_check};
use crate::machine::Machine;
use sheet::{Check, Needs, Reading, Record, Records, payload, read_sheet, record_or};

// The first refusal, or clear; the machine, and the record of each role. No `Result` of these: `LoadedBy`
// promises what they are where something is refused too.
#[derive(Clone, Copy, Debug, PartialEq, Eq)]
pub struct Loaded {
    pub check: Check,
    pub machine: Machine,
    pub records: Records,
}

// The causes of the machine.
fn machine_check(sheet: &[u8], needs: Needs, reading: Reading) -> Check
    requires { reading ≡ reading_of standard needs sheet.now }
    ensures { result ≡ first_cause (machine_causes needs sheet.now) }
{
    reading.check?;
    let found = reading.records.machine;
    table_check(record_or(found).start, payload(sheet, found))
}

// The causes of the word, where it is needed, for the sheet's machine.
fn needed_word(sheet: &[u8], found: Option<Record>, m: &Machine, needed: bool) -> Check
    requires { NeededRequires sheet.now (meaning m.now) standard.word found }
    ensures { result ≡ first_cause (when needed (word_causes_in sheet.now)) }
{
    if needed {
        word_check(m, record_or(found).start, payload(sheet, found))
    } else {
        Ok(())
    }
}

// Those of the sequence likewise. One function of both would take the check as a closure and the causes
// that it promises beside it, and be no shorter.
fn needed_sequence(sheet: &[u8], found: Option<Record>, m: &Machine, needed: bool) -> Check
    requires { NeededRequires sheet.now (meaning m.now) standard.sequence found }
    ensures { result ≡ first_cause (when needed (sequence_causes_in sheet.now)) }
{
    if needed {
        sequence_check(m, record_or(found).start, payload(sheet, found))
    } else {
        Ok(())
    }
}

// All causes of loading, with the machine as it was loaded.
fn all_checks(sheet: &[u8], needs: Needs, reading: Reading, m: &Machine) -> Check
    requires as_read { reading ≡ reading_of standard needs sheet.now }
    requires as_held { meaning m.now ≡ held sheet.now }
    ensures { result ≡ first_cause (load_causes needs sheet.now) }
{
    machine_check(sheet, needs, reading)?;
    let records = reading.records;
    let word = needed_word(sheet, records.word, m, needs.word);
    let sequence = needed_sequence(sheet, records.sequence, m, needs.sequence);
    word.and(sequence)
}

// Loads a sheet, in one pass, for a service that needs the machine and these roles besides.
pub fn load_sheet(sheet: &[u8], needs: Needs) -> Loaded
    ensures { LoadedBy (load_causes needs sheet.now) sheet.now result }
{
    let reading = read_sheet(sheet, needs);
    let records = reading.records;
    let machine = Machine::load(payload(sheet, records.machine));
    let check = all_checks(sheet, needs, reading, &machine);
    Loaded {
        check,
        machine,
        records,
    }
}
