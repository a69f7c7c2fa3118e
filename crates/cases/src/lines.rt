// The lines of an input: comments are copied, old answers dropped, cases copied and answered.
use crate::fields::read_case;
use crate::output::Output;
use crate::reader::Unreadable;
use crate::services::perform;
use std::fmt::{Result, Write};

// The column of the place in a line at which it cannot be read, counted from 1.
fn column(line: &[u8], unreadable: Unreadable) -> usize {
    line.len().saturating_sub(unreadable.left) + 1
}

// What answers cases: a buffer for the parts of a case, one that is lent to a service, and where the
// answers go.
#[derive(Drop)]
pub(crate) struct Runner<'a> {
    parts: &'a mut [u8],
    lent: &'a mut [u8],
    out: Output<'a>,
}

impl<'a> Runner<'a> {
    pub(crate) fn new(
        rt: &'a HostRuntime,
        parts: &'a mut [u8],
        lent: &'a mut [u8],
        waiting: &'a mut [u8],
    ) -> Self {
        Runner {
            parts,
            lent,
            out: Output::new(rt, waiting),
        }
    }
}

impl Runner<'_> {
    // The answer to a line that is to be a case.
    fn answer(&mut self, line: &[u8]) -> Result {
        match read_case(line, self.lent.len(), self.parts) {
            Ok(case) => perform(case, self.lent, &mut self.out),
            Err(unreadable) => write!(self.out, "unreadable at {}", column(line, unreadable)),
        }
    }

    // A line with its newline.
    fn copy(&mut self, line: &[u8]) -> Result {
        if !line.is_empty() {
            self.out.bytes(line)?;
        }
        self.out.bytes(b"\n")
    }

    // A case and its answer.
    fn case(&mut self, line: &[u8]) -> Result {
        self.copy(line)?;
        write!(self.out, "> ")?;
        self.answer(line)?;
        writeln!(self.out)
    }

    // Every line of an input, and how many cases there were.
    pub(crate) fn answer_lines(&mut self, input: &[u8]) -> Result {
        let mut cases: usize = 0;
        for ended in input.split_inclusive(|b| *b == b'\n') {
            let line = ended.strip_suffix(b"\n").unwrap_or(ended);
            match line {
                [] | [b'#', ..] => self.copy(line)?,
                [b'>', ..] => (),
                _ => {
                    self.case(line)?;
                    cases += 1;
                }
            }
        }
        writeln!(self.out, "> {cases} cases")?;
        self.out.flush()
    }
}
