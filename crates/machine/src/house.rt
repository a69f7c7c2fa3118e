// The house control unit, which ships inside the program.
ghost use Rattle.std.specs.Prelude.{◌+◌, ◌<◌, ◌≡◌, get_or};
ghost use Rattle.sheet.specs.Format.{standard};
ghost use Rattle.machine.specs.House.{house_entry, house_payload};

use sheet::TABLE;

// An entry of a machine's table.
#[derive(Clone, Copy, Debug, PartialEq, Eq)]
pub struct Entry {
    pub next: u8,
    pub answer: u8,
}

// A packed entry is its next state times this, plus its answer.
const RADIX: u8 = 64;

// The packed entries, four commands a state. In octal, the first digit is the next state and the
// other two are the answer.
const PACKED: [u8; 16] = [
    // preview waiting
    0o037, 0o106, 0o206, 0o025,
    // archive waiting
    0o102, 0o006, 0o306, 0o125,
    // preview running
    0o237, 0o225, 0o225, 0o006,
    // archive running
    0o302, 0o325, 0o325, 0o106,
];

// The entry of a state and a command; next state 255 and answer 0 above 3, by its promise.
pub fn house_entry(state: u8, command: u8) -> Entry
    ensures { result ≡ house_entry state command }
{
    if 3 < state || 3 < command {
        return Entry {
            next: 255,
            answer: 0,
        };
    }
    let packed = PACKED[state as usize * 4 + command as usize];
    Entry {
        next: packed / RADIX,
        answer: packed % RADIX,
    }
}

// The bytes of the house unit's machine record, its header left out.
pub const HOUSE_PAYLOAD: usize = TABLE + 32;

// The house unit's word.
pub const HOUSE_WORD: [u8; 2] = [0, 1];

// A byte of the table in the house unit's machine record: the next state or the answer of an entry.
fn table_byte(at: u8) -> u8
    requires { at < 32 }
    ensures { result ≡ get_or house_payload (standard.table + at) 0 }
{
    let e = at / 2;
    let entry = house_entry(e / 4, e % 4);
    if at % 2 == 0 {
        return entry.next;
    }
    entry.answer
}

// The place behind one of the table. The compiler does not look into it, and so computes no loop that
// goes on by it.
#[inline(never)]
fn following(at: usize) -> usize
    requires { at < 32 }
    ensures { result ≡ at + 1 }
{
    at + 1
}

// The payload of the house unit's machine record: n, k, then its entries, all commands of state 0
// first. The compiler would compute a loop whose places it knows, and the program would hold the
// record as it comes out, unpacked.
pub fn house_payload() -> [u8; HOUSE_PAYLOAD]
    ensures { result ≡ house_payload }
{
    let mut payload = [0u8; HOUSE_PAYLOAD];
    payload[0] = 4;
    payload[1] = 4;
    let mut at: usize = 0;
    while at < 32 {
        payload[TABLE + at] = table_byte(at as u8);
        at = following(at);
    }
    payload
}
