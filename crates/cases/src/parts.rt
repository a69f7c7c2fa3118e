// Reading a part: bytes, runs of them and records, put into a buffer one behind the other.
ghost use Rattle.std.specs.Prelude.{◌+◌, ◌-◌, ◌<◌, ◌≤◌, ◌≡◌, length, IfOk, OnOk};

use crate::reader::{BYTE, KIND, LENGTH, Reader, Unreadable};
use sheet::{HEADER, header_of, put};

// The parts of a case: a buffer behind those that are read, and how many of its first bytes the one has
// that is read now. The buffer is lent, since programs have no heap.
#[derive(Drop)]
pub(crate) struct Parts<'a> {
    buffer: &'a mut [u8],
    used: usize,
    ghost in_bounds: { used ≤ length buffer.now },
}

impl<'a> Parts<'a> {
    pub(crate) fn new(buffer: &'a mut [u8]) -> Self {
        Parts { buffer, used: 0 }
    }

    // How many bytes of the buffer are left.
    fn left(&self) -> usize
        ensures { result ≡ length self.now.buffer.now - self.now.used }
    {
        self.buffer.len() - self.used
    }

    // Puts a byte behind the part, many times.
    fn push(&mut self, b: u8, count: usize)
        requires { count ≤ length self.old.buffer.now - self.old.used }
    {
        let end = self.used + count;
        self.buffer[self.used..end].fill(b);
        self.used = end;
    }

    // The part, which is read to its end; the next one begins behind it.
    fn finished(&mut self) -> &'a [u8] {
        let size = self.used;
        self.used = 0;
        self.buffer.split_off_mut(..size).unwrap_or(&mut [])
    }
}

// A number of bytes in 32 bits; the largest such number where there are more.
fn narrow(bytes: usize) -> u32 {
    u32::try_from(bytes).unwrap_or(u32::MAX)
}

impl Reader<'_> {
    // How often a byte is meant, by what stands behind it: `*N`, or nothing for once.
    fn times(&mut self, most: usize) -> Result<usize, Unreadable>
        ensures value { IfOk result (λ n. n ≤ most) }
        ensures no_longer { OnOk result (length self.new.rest.now ≤ length self.old.rest.now) }
    {
        if self.accept(b'*') {
            self.number(most)
        } else if most == 0 {
            Err(self.unreadable())
        } else {
            Ok(1)
        }
    }

    // `B` or `B*N`.
    fn run(&mut self, parts: &mut Parts<'_>) -> Result<(), Unreadable>
        ensures { OnOk result (length self.new.rest.now < length self.old.rest.now) }
    {
        let b = self.number(BYTE)? as u8;
        let count = self.times(parts.left())?;
        parts.push(b, count);
        Ok(())
    }

    // Runs with a space before each but the first: a `while`, since reading tells whether one more is
    // there.
    fn runs(&mut self, parts: &mut Parts<'_>) -> Result<(), Unreadable>
        ensures { OnOk result (length self.new.rest.now < length self.old.rest.now) }
    {
        self.run(parts)?;
        while self.accept(b' ') {
            self.run(parts)?;
        }
        Ok(())
    }

    // `:LEN`, or nothing.
    fn length(&mut self) -> Result<Option<u32>, Unreadable>
        ensures { OnOk result (length self.new.rest.now ≤ length self.old.rest.now) }
    {
        if self.accept(b':') {
            Ok(Some(self.number(LENGTH)? as u32))
        } else {
            Ok(None)
        }
    }

    // What stands in a record behind its kind and length: nothing, or a space and behind it nothing, `-`
    // or runs.
    fn payload(&mut self, parts: &mut Parts<'_>) -> Result<(), Unreadable>
        ensures { OnOk result (length self.new.rest.now ≤ length self.old.rest.now) }
    {
        if self.next_is(b'}') {
            return Ok(());
        }
        self.expect(b' ')?;
        if self.next_is(b'}') || self.accept(b'-') {
            return Ok(());
        }
        self.runs(parts)
    }

    // `{K ..}` or `{K:LEN ..}`, where there is room for its header, whose place is kept free while the
    // payload is read.
    fn record(&mut self, parts: &mut Parts<'_>) -> Result<(), Unreadable>
        ensures { OnOk result (length self.new.rest.now < length self.old.rest.now) }
    {
        if parts.left() < HEADER {
            return Err(self.unreadable());
        }
        self.expect(b'{')?;
        let kind = self.number(KIND)? as u16;
        let given = self.length()?;
        let start = parts.used;
        parts.push(0, HEADER);
        let from = parts.used;
        self.payload(parts)?;
        let length = given.unwrap_or(narrow(parts.used.saturating_sub(from)));
        put(&header_of(kind, length), start, parts.buffer);
        self.expect(b'}')
    }

    // A record or a run; says whether it was a record.
    fn item(&mut self, parts: &mut Parts<'_>) -> Result<bool, Unreadable>
        ensures { OnOk result (length self.new.rest.now < length self.old.rest.now) }
    {
        let is_record = self.next_is(b'{');
        if is_record {
            self.record(parts)?;
        } else {
            self.run(parts)?;
        }
        Ok(is_record)
    }

    // Whether the ` /` before the next part stands here; behind the last one it is not looked for.
    fn is_divided(&self, last: bool) -> bool {
        !last && self.rest.starts_with(b" /")
    }

    // Whether one more item begins here: a record right behind another, or any behind a space, which is
    // read.
    fn goes_on(&mut self, behind_record: bool, last: bool) -> bool
        ensures { length self.new.rest.now ≤ length self.old.rest.now }
    {
        behind_record && self.next_is(b'{') || !self.is_divided(last) && self.accept(b' ')
    }

    // Items, one behind the other, likewise.
    fn items(&mut self, last: bool, parts: &mut Parts<'_>) -> Result<(), Unreadable> {
        let mut is_record = self.item(parts)?;
        while self.goes_on(is_record, last) {
            is_record = self.item(parts)?;
        }
        Ok(())
    }

    // A part, the last one that the case can have or not: `-`, or items.
    pub(crate) fn part<'a>(
        &mut self,
        last: bool,
        parts: &mut Parts<'a>,
    ) -> Result<&'a [u8], Unreadable> {
        if !self.accept(b'-') {
            self.items(last, parts)?;
        }
        Ok(parts.finished())
    }
}
