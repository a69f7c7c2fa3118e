// What the bench says of the words that it is started with: its services, and what is wrong with
// other words.
ghost use Rattle.std.specs.Prelude.{◌≤◌, ◌≡◌, length};
ghost use Rattle.report.specs.Output.{Writes};
ghost use Rattle.report.specs.Words.{longest_mistake, mistake_text};
ghost use Rattle.report.specs.Services.{helped, mistaken};

use crate::output::{OUTPUT, Written};
use crate::pieces::{Cursor, print};

// What is wrong: a first word that names no service, an empty word, one that is too long, too many
// or too few words, a word that is no kind.
#[derive(Clone, Copy)]
pub enum Mistake {
    Unknown,
    Empty,
    Long,
    Many,
    Few,
    Kind,
}

// What is wrong, in words.
fn mistake_text(mistake: Mistake) -> &'static [u8]
    ensures text { result.now ≡ mistake_text mistake }
    ensures short { length result.now ≤ longest_mistake }
{
    match mistake {
        Mistake::Unknown => b"the first argument names no service",
        Mistake::Empty => b"an argument is empty",
        Mistake::Long => b"an argument is longer than 4095 bytes",
        Mistake::Many => b"too many arguments for this service",
        Mistake::Few => b"too few arguments for this service",
        Mistake::Kind => b"KIND is not a decimal number from 0 to 65535",
    }
}

// Says what is wrong with the words, and where the services are listed.
pub fn tell(mistake: Mistake, out: &mut [u8; OUTPUT]) -> Written
    ensures { Writes (mistaken mistake) out.old out.new result }
{
    let mut line = Cursor::new(out);
    line.put(b"bench: ");
    line.put(mistake_text(mistake));
    line.put(b"; bench help lists the services\n");
    Written::to_error(line.end)
}

// The lines of all services.
const HELP: &[u8] = b"\
bench, bench judge      judge the sheet on standard input: PASS, WRONG, UNHEARD, UNFINISHED or REFUSED\n\
bench certify           certify the sequence of the sheet on standard input: CERTIFIED, OPEN or REFUSED\n\
bench word              find a separating word for the machine of the sheet on standard input: \
the sheet with it as record 2; WORD, NONE or REFUSED on standard error\n\
bench build             build the sequence of the sheet on standard input: the sheet with it as record 3\n\
bench read KIND         read the sheet on standard input: \
the payload of record 1 machine, 2 word, 3 sequence, 4 answers\n\
bench write MACHINE WORD [SEQUENCE [ANSWERS]]  write the sheet of the payloads in these files, \
as bench read gives them\n\
bench answers FILE      put the answers in that file into the sheet on standard input: \
the sheet with them as record 4\n\
bench desk SHEET        bring a unit to its start by the sheet in that file: \
COMMAND, answers on standard input, HOME or STRANGER\n\
bench house             the house unit's sheet: machine and word\n\
bench help, --help, -h  these lines\n";

// Lists the services.
pub fn help(out: &mut [u8; OUTPUT]) -> Written
    ensures { Writes helped out.old out.new result }
{
    Written::to_output(print(HELP, out))
}
