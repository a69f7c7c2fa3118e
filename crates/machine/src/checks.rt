// The causes of a payload: 3, 4 and 12 of a machine, 5 and 6 of a word, 7 of a sequence. Its record
// starts, or would start, at an offset of a sheet. The offset has 32 bits, so that no place
// overflows, however long the payload is.
ghost use Rattle.std.specs.Prelude.{◌≡◌, ℕ, ◌+◌, ◌*◌, ◌≤◌, ◌<◌, ◌^◌, true, length, get_or};
ghost use Rattle.sheet.specs.Check.{first, first_cause};
ghost use Rattle.sheet.specs.Format.{standard, header};
ghost use Rattle.machine.specs.Machine.{meaning};
ghost use Rattle.machine.specs.Causes.{cause3, byte_cause, commands_cause, table_causes, word_causes};
ghost use Rattle.machine.specs.Causes.{sequence_causes};
ghost use Rattle.machine.specs.Causes.{outside as outside_of};

use crate::machine::Machine;
use crate::separation::separation;
use sheet::{Check, HEADER, TABLE, byte, refuse};

// Whether a number is outside its limits.
fn outside(most: usize, x: usize) -> bool
    ensures { result ≡ outside_of most x }
{
    x < Machine::LEAST || most < x
}

// The first of count bytes of a part, at from and then every stride, that is bound or more. The
// part starts at base in the sheet. The number, here and below, is that of the cause, as in
// `refuse`; no struct, since no two callers share a value.
fn scan(
    number: u8,
    base: usize,
    part: &[u8],
    from: usize,
    stride: usize,
    count: usize,
    bound: u8,
) -> Check
    requires { base + (from + stride * count) < 2 ^ 64 }
    ensures { result ≡ first count (byte_cause number base part.now from stride bound) }
{
    for i in 0..count {
        let at = from + stride * i;
        refuse(number, base + at, bound <= byte(part, at))?;
    }
    Ok(())
}

// Cause 3.
fn shape(at: u32, p: &[u8]) -> Check
    ensures { result ≡ cause3 standard at p.now }
{
    let n = byte(p, 0) as usize;
    let k = byte(p, 1) as usize;
    let states = outside(Machine::STATES, n);
    let commands = outside(Machine::COMMANDS, k);
    refuse(
        3,
        at as usize,
        states | commands | (p.len() != TABLE + 2 * (n * k)),
    )
}

// The first of the n·k pairs of a payload whose byte is bound or more: every second byte from a
// place on.
fn scan_pairs(number: u8, at: u32, p: &[u8], from: usize, bound: u8) -> Check
    requires { from ≤ standard.table + 1 }
    ensures { result ≡ first (get_or p.now 0 0 * get_or p.now 1 0)
        (byte_cause number (at + header) p.now from 2 bound) }
{
    let n = byte(p, 0) as usize;
    let k = byte(p, 1) as usize;
    scan(number, at as usize + HEADER, p, from, 2, n * k, bound)
}

// The causes of a machine's payload.
pub fn table_check(at: u32, p: &[u8]) -> Check
    ensures { result ≡ first_cause (table_causes standard at p.now) }
{
    shape(at, p)?;
    let four = scan_pairs(4, at, p, TABLE, byte(p, 0));
    let twelve = scan_pairs(12, at, p, TABLE + 1, Machine::NO_ANSWER);
    four.and(twelve)
}

// Whether all bytes are below a bound. It never ends early, so the compiler can make it without a jump
// that depends on a byte.
fn all_below(bytes: &[u8], bound: u8) -> bool
    ensures { result ≡ true → (i : ℕ) → i < length bytes.now → get_or bytes.now i 0 < bound }
{
    let mut below = true;
    for x in bytes {
        below &= *x < bound;
    }
    below
}

// Causes 5 and 7: at most so many commands, for a machine of k commands. The place is looked for only
// where a command is not below k.
fn commands(number: u8, most: usize, k: u8, at: u32, w: &[u8]) -> Check
    ensures { result ≡ commands_cause number most k at w.now }
{
    let start = at as usize;
    refuse(number, start, outside(most, w.len()))?;
    if all_below(w, k) {
        return Ok(());
    }
    scan(number, start + HEADER, w, 0, 1, w.len(), k)
}

// The causes of a word, for a machine.
pub fn word_check(m: &Machine, at: u32, w: &[u8]) -> Check
    ensures { result ≡ first_cause (word_causes (meaning m.now) at w.now) }
{
    commands(5, Machine::WORD, m.k, at, w)?;
    separation(m, w)
}

// The causes of a sequence, for a machine.
pub fn sequence_check(m: &Machine, at: u32, xs: &[u8]) -> Check
    ensures { result ≡ first_cause (sequence_causes (meaning m.now) at xs.now) }
{
    commands(7, Machine::SEQUENCE, m.k, at, xs)
}
