// The pieces of a line or a sheet, put into a lent buffer one behind the other.
ghost use Rattle.std.specs.Prelude.{◌+◌, ◌*◌, ◌≤◌, ◌≡◌, ◌++◌, length};
ghost use Rattle.facts.specs.Decimal.{decimal};
ghost use Rattle.sheet.specs.Format.{standard, longest, header, new_kind};
ghost use Rattle.sheet.specs.Writing.{record_bytes};
ghost use Rattle.report.specs.Digits.{most_digits};
ghost use Rattle.report.specs.Phrases.{longest_phrase, phrase};
ghost use Rattle.report.specs.Lines.{spaced, listed};
ghost use Rattle.report.specs.Pieces.{Prints, list_room, PutsNext};

use crate::output::OUTPUT;
use crate::phrases::phrase_of;
use sheet::{Role, new_kind};

// The most digits of a 64-bit number.
const DIGITS: usize = 20;

// A buffer into which pieces are put one behind the other, from its start, and where they end. It is
// lent, since there is no heap.
#[derive(Drop)]
pub struct Cursor<'a> {
    buffer: &'a mut [u8],
    pub end: usize,
}

impl<'a> Cursor<'a> {
    // Nothing is put yet.
    pub fn new(buffer: &'a mut [u8]) -> Cursor<'a>
        ensures same_buffer { result.buffer.ghost_name ≡ buffer.entry.ghost_name }
        ensures bytes { result.buffer.now ≡ buffer.old }
        ensures end { result.end ≡ 0 }
    {
        Cursor { buffer, end: 0 }
    }

    // A text.
    pub fn put(&mut self, text: &[u8])
        requires { self.old.end + length text.now ≤ length self.old.buffer.now }
        ensures { PutsNext text.now self.old self.new }
    {
        self.end = sheet::put(text, self.end, self.buffer);
    }

    // A number in decimal.
    fn put_decimal(&mut self, n: u64)
        requires { self.old.end + most_digits ≤ length self.old.buffer.now }
        ensures next { PutsNext (decimal n) self.old self.new }
        ensures upper_bound { self.new.end ≤ self.old.end + most_digits }
    {
        let mut digits = [0u8; DIGITS];
        let size = io::decimal(n, &mut digits);
        self.put(&digits[..size]);
    }

    // A text, then a number.
    pub fn put_labelled(&mut self, text: &[u8], n: u64)
        requires { self.old.end + length text.now + most_digits ≤ length self.old.buffer.now }
        ensures next { PutsNext (text.now ++ decimal n) self.old self.new }
        ensures upper_bound { self.new.end ≤ self.old.end + length text.now + most_digits }
    {
        self.put(text);
        self.put_decimal(n);
    }

    // Numbers, each with a space before it.
    pub fn put_list(&mut self, numbers: &[u8])
        requires { self.old.end + list_room * length numbers.now ≤ length self.old.buffer.now }
        ensures next { PutsNext (listed numbers.now) self.old self.new }
        ensures upper_bound { self.new.end ≤ self.old.end + list_room * length numbers.now }
    {
        for &n in numbers {
            self.put_labelled(b" ", n as u64);
        }
    }

    // The phrase of a refusal number with a space before it, or nothing.
    pub fn put_phrase(&mut self, number: u8)
        requires { self.old.end + (longest_phrase + 1) ≤ length self.old.buffer.now }
        ensures next { PutsNext (spaced (phrase number)) self.old self.new }
        ensures upper_bound { self.new.end ≤ self.old.end + (longest_phrase + 1) }
    {
        let phrase = phrase_of(number);
        if phrase.is_empty() {
            return;
        }
        self.put(b" ");
        self.put(phrase);
    }

    // A record: its header, then its payload, which is no longer than a sheet.
    pub fn put_record(&mut self, kind: u16, payload: &[u8])
        requires short { length payload.now ≤ longest }
        requires room { self.old.end + header + length payload.now ≤ length self.old.buffer.now }
        ensures { PutsNext (record_bytes kind payload.now) self.old self.new }
    {
        self.end = sheet::put_record(kind, payload, self.end, self.buffer);
    }

    // A new record of a role likewise.
    pub fn put_role(&mut self, role: Role, payload: &[u8])
        requires short { length payload.now ≤ longest }
        requires room { self.old.end + header + length payload.now ≤ length self.old.buffer.now }
        ensures { PutsNext (record_bytes (new_kind standard role) payload.now) self.old self.new }
    {
        self.put_record(new_kind(role), payload);
    }
}

// A text at the start of a lent buffer; gives the place behind it.
pub fn print(text: &[u8], out: &mut [u8; OUTPUT]) -> usize
    requires { length text.now ≤ length out.old }
    ensures { Prints text.now out.old out.new result }
{
    let mut written = Cursor::new(out);
    written.put(text);
    written.end
}
