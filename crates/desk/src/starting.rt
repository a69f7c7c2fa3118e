// The desk at its first command.
ghost use Rattle.desk.specs.Service.{Starts};

use crate::desk::{Desk, Phase};
use build::load_connected;
use machine::Machine;
use sheet::{Refusal, byte, payload, put};

// The first command, or the refusal; and the desk, of which nothing is promised on a refusal. It stands
// beside the answer, since `Begins` of the crate report names the desk of a refused start too.
#[derive(Clone, Copy, Debug, PartialEq, Eq)]
pub struct Started {
    pub first: Result<u8, Refusal>,
    pub desk: Desk,
}

// Checks a sheet for the causes of loading and 8, and gives the desk and the first command.
pub fn start(sheet: &[u8]) -> Started
    ensures { Starts sheet.now result }
{
    let loaded = load_connected(sheet);
    let mut word = [0u8; Machine::WORD];
    let end = put(payload(sheet, loaded.records.word), 0, &mut word);
    let command = byte(&word, 0);
    let desk = Desk {
        machine: loaded.machine,
        word,
        size: end as u8,
        heard: [0u8; Machine::WORD],
        count: 0,
        sent: command,
        phase: Phase::Reading { position: 0 },
    };
    Started {
        first: loaded.check.and(Ok(command)),
        desk,
    }
}
