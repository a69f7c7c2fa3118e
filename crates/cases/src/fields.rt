// A case: a service with the fields behind its name.
ghost use Rattle.std.specs.Prelude.{◌≤◌, IfOk};

use crate::names::Service;
use crate::parts::Parts;
use crate::reader::{BYTE, KIND, Reader, Unreadable};

// A case, its parts as bytes.
#[derive(Clone, Copy)]
pub(crate) enum Case<'a> {
    // The room and the sheet.
    Judge(usize, &'a [u8]),
    Certify(usize, &'a [u8]),
    Build(usize, &'a [u8]),
    // The kind and the sheet.
    Refusal(u16, &'a [u8]),
    Part(u16, &'a [u8]),
    // The two states and the sheet.
    Transfer(u8, u8, &'a [u8]),
    // The sheet and the answers.
    Desk(&'a [u8], &'a [u8]),
    // The sheet.
    Word(&'a [u8]),
    // The room and what is to be written.
    Write(usize, Payloads<'a>),
    // The state and the command.
    House(u8, u8),
    Limits,
}

// The payloads of a sheet's records, those that it has.
#[derive(Clone, Copy)]
pub(crate) struct Payloads<'a> {
    pub(crate) machine: &'a [u8],
    pub(crate) word: &'a [u8],
    pub(crate) sequence: Option<&'a [u8]>,
    pub(crate) answers: Option<&'a [u8]>,
}

impl Reader<'_> {
    // A number with the space behind it.
    fn spaced(&mut self, most: usize) -> Result<usize, Unreadable>
        ensures { IfOk result (λ n. n ≤ most) }
    {
        let number = self.number(most)?;
        self.expect(b' ')?;
        Ok(number)
    }

    // A part behind another, with the ` / ` between them.
    fn next_part<'a>(&mut self, last: bool, parts: &mut Parts<'a>) -> Result<&'a [u8], Unreadable> {
        self.expect(b' ')?;
        self.expect(b'/')?;
        self.expect(b' ')?;
        self.part(last, parts)
    }

    // The same, where the line goes on.
    fn optional_part<'a>(
        &mut self,
        last: bool,
        parts: &mut Parts<'a>,
    ) -> Result<Option<&'a [u8]>, Unreadable> {
        if self.next_is(b' ') {
            Ok(Some(self.next_part(last, parts)?))
        } else {
            Ok(None)
        }
    }

    // Two, three or four payloads.
    fn payloads<'a>(&mut self, parts: &mut Parts<'a>) -> Result<Payloads<'a>, Unreadable> {
        Ok(Payloads {
            machine: self.part(false, parts)?,
            word: self.next_part(false, parts)?,
            sequence: self.optional_part(false, parts)?,
            answers: self.optional_part(true, parts)?,
        })
    }

    // The fields of a service, with a room of at most so many bytes: an arm for each, of other fields.
    fn fields<'a>(
        &mut self,
        service: Service,
        most: usize,
        parts: &mut Parts<'a>,
    ) -> Result<Case<'a>, Unreadable> {
        Ok(match service {
            Service::Judge => Case::Judge(self.spaced(most)?, self.part(true, parts)?),
            Service::Certify => Case::Certify(self.spaced(most)?, self.part(true, parts)?),
            Service::Build => Case::Build(self.spaced(most)?, self.part(true, parts)?),
            Service::Refusal => Case::Refusal(self.spaced(KIND)? as u16, self.part(true, parts)?),
            Service::Part => Case::Part(self.spaced(KIND)? as u16, self.part(true, parts)?),
            Service::Transfer => Case::Transfer(
                self.spaced(BYTE)? as u8,
                self.spaced(BYTE)? as u8,
                self.part(true, parts)?,
            ),
            Service::Desk => Case::Desk(self.part(false, parts)?, self.next_part(true, parts)?),
            Service::Word => Case::Word(self.part(true, parts)?),
            Service::Write => Case::Write(self.spaced(most)?, self.payloads(parts)?),
            Service::House => Case::House(self.spaced(BYTE)? as u8, self.number(BYTE)? as u8),
            Service::Limits => Case::Limits,
        })
    }
}

// The case that a line is, with a room of at most so many bytes; its parts are put into a buffer.
pub(crate) fn read_case<'a>(
    line: &[u8],
    most: usize,
    buffer: &'a mut [u8],
) -> Result<Case<'a>, Unreadable> {
    let mut reader = Reader { rest: line };
    let mut parts = Parts::new(buffer);
    let service = reader.service()?;
    let case = reader.fields(service, most, &mut parts)?;
    reader.end()?;
    Ok(case)
}
