// Reading a line from the front: single bytes and decimal numbers.
ghost use Rattle.std.specs.Prelude.{◌<◌, ◌≤◌, length, IfOk, IfSome, OnOk, IsTrue};

// The largest byte, the largest kind, and the largest length in a header.
pub(crate) const BYTE: usize = 255;

pub(crate) const KIND: usize = 65_535;

pub(crate) const LENGTH: usize = 4_294_967_295;

// A line of which the first bytes are read: what is left of it.
#[derive(Drop)]
pub(crate) struct Reader<'a> {
    pub(crate) rest: &'a [u8],
}

// That no case goes on with what is left of a line, and how many bytes that are.
#[derive(Clone, Copy)]
pub(crate) struct Unreadable {
    pub(crate) left: usize,
}

// A number with a digit behind it, where it is not too large.
fn extended(value: usize, digit: u8, most: usize) -> Option<usize>
    ensures { IfSome result (λ n. n ≤ most) }
{
    let next = value.checked_mul(10)?.checked_add(digit as usize)?;
    (next <= most).then_some(next)
}

impl Reader<'_> {
    // That the line cannot be read from here on.
    pub(crate) fn unreadable(&self) -> Unreadable {
        Unreadable {
            left: self.rest.len(),
        }
    }

    // Whether a byte stands next.
    pub(crate) fn next_is(&self, b: u8) -> bool {
        matches!(self.rest, [first, ..] if *first == b)
    }

    // Reads a byte where it stands next, and says whether it did.
    pub(crate) fn accept(&mut self, b: u8) -> bool
        ensures shorter { IsTrue result → length self.new.rest.now < length self.old.rest.now }
        ensures no_longer { length self.new.rest.now ≤ length self.old.rest.now }
    {
        match self.rest {
            [first, rest @ ..] if *first == b => {
                self.rest = rest;
                true
            }
            _ => false,
        }
    }

    // A byte, which has to stand next.
    pub(crate) fn expect(&mut self, b: u8) -> Result<(), Unreadable>
        ensures { OnOk result (length self.new.rest.now < length self.old.rest.now) }
    {
        if self.accept(b) {
            Ok(())
        } else {
            Err(self.unreadable())
        }
    }

    // The line has to end here.
    pub(crate) fn end(&self) -> Result<(), Unreadable> {
        if self.rest.is_empty() {
            Ok(())
        } else {
            Err(self.unreadable())
        }
    }

    // A number, of at least one digit, that is at most another. A `while`: `rest` tells where it ends.
    pub(crate) fn number(&mut self, most: usize) -> Result<usize, Unreadable>
        ensures value { IfOk result (λ n. n ≤ most) }
        ensures shorter { OnOk result (length self.new.rest.now < length self.old.rest.now) }
    {
        let mut value = None;
        while let [b @ b'0'..=b'9', rest @ ..] = self.rest {
            let next = extended(value.unwrap_or(0), *b - b'0', most);
            value = Some(next.ok_or(self.unreadable())?);
            self.rest = rest;
        }
        value.ok_or(self.unreadable())
    }
}
