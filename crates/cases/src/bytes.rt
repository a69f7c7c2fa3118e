// Bytes as text, in the notation of cases.
use std::fmt;

// Bytes as items: a run of three and more equal ones as `B*N`, and none as `-`.
#[derive(Clone, Copy)]
pub(crate) struct Bytes<'a>(pub(crate) &'a [u8]);

impl fmt::Display for Bytes<'_> {
    fn fmt<W: fmt::Write>(&self, f: &mut fmt::Formatter<W>) -> fmt::Result {
        if self.0.is_empty() {
            return write!(f, "-");
        }
        for (i, run) in self.0.chunk_by(|a, b| a == b).enumerate() {
            if i > 0 {
                write!(f, " ")?;
            }
            match run {
                [] => (),
                [b] => write!(f, "{b}")?,
                [b, _] => write!(f, "{b} {b}")?,
                [b, ..] => write!(f, "{b}*{}", run.len())?,
            }
        }
        Ok(())
    }
}
