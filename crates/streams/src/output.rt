// Standard output and standard error. Whether a stream takes the bytes no contract here can say;
// that writing none succeeds they say.
ghost use Rattle.std.specs.Prelude.{is_ok};
ghost use Rattle.streams.specs.Output.{WrittenAll};

use crate::telling::{Told, tell};
use std::io;
use std::io::{Error, ErrorKind, Write};

// Writes all bytes to a stream, or fails: it stops at the first write that takes nothing or fails,
// when some of the bytes may have been written. std's `write_all` would try a write that a signal
// interrupted again, and it does not say that writing none succeeds.
pub fn write<W: Write>(stream: &mut W, bytes: &[u8]) -> io::Result<()>
    ensures { WrittenAll bytes.now (is_ok result) }
{
    let mut rest = bytes;
    while !rest.is_empty() {
        let taken = stream.write(rest)?;
        if taken == 0 {
            return Err(Error::from(ErrorKind::WriteZero));
        }
        rest = &rest[taken..];
    }
    Ok(())
}

// Writes all bytes to standard output, or tells on standard error that it could not.
pub fn write_output(rt: &HostRuntime, bytes: &[u8]) -> Result<(), Told>
    ensures { WrittenAll bytes.now (is_ok result) }
{
    write(&mut rt.stdout(), bytes).map_err(|error| tell(rt, b"standard output", error))
}

// Writes all bytes to standard error, or fails: that is told nowhere.
pub fn write_error(rt: &HostRuntime, bytes: &[u8]) -> io::Result<()>
    ensures { WrittenAll bytes.now (is_ok result) }
{
    write(&mut rt.stderr(), bytes)
}
