// What a run of the bench writes: bytes for standard output and bytes for standard error, one behind
// the other at the start of a lent buffer.
ghost use Rattle.std.specs.Prelude.{◌≡◌};

use machine::Machine;
use sheet::{HEADER, LONGEST};

// The bytes of a buffer for what is written: no service writes more than a sheet's bytes and a
// sequence's record behind them.
pub const OUTPUT: usize = LONGEST + HEADER + Machine::SEQUENCE;

// Where the bytes for standard output end, and where those for standard error, behind them, end. No
// slices: whoever is told has the buffer.
#[derive(Clone, Copy)]
pub struct Written {
    pub out: usize,
    pub end: usize,
}

impl Written {
    // So many bytes for standard output, and none for standard error.
    pub(crate) fn to_output(size: usize) -> Written
        ensures { result ≡ record { out = size; end = size } }
    {
        Written {
            out: size,
            end: size,
        }
    }

    // So many bytes for standard error, and none for standard output.
    pub(crate) fn to_error(size: usize) -> Written
        ensures { result ≡ record { out = 0; end = size } }
    {
        Written { out: 0, end: size }
    }
}
