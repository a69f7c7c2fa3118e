// A line of standard input. What its bytes are no contract can say; it says how many count.
ghost use Rattle.std.specs.Prelude.{◌≡◌, IfOk, IfSome};
ghost use Rattle.io.specs.Counts.{IsPrefixLen};

use crate::input::{EINTR, STANDARD_INPUT, read_more};
use crate::telling::{Told, tell};
use std::io;
use std::io::Error;

// What is left of a line at the end of the input.
fn last_line(size: usize) -> Option<usize>
    ensures { IfSome result (λ count. count ≡ size) }
{
    if size == 0 { None } else { Some(size) }
}

// The line that standard input begins with; a failure is not told yet. It counts its turns as
// `read_all` does. std's `bytes` would read the same, but what it says of a failure no contract holds.
fn next_line(rt: &HostRuntime, buf: &mut [u8]) -> io::Result<Option<usize>>
    ensures { IfOk result (λ line. IfSome line (λ count. IsPrefixLen count buf.new)) }
{
    let mut stdin = rt.stdin();
    let mut size = 0;
    for _ in 0..u64::MAX {
        if size == buf.len() {
            return Ok(Some(size));
        }
        match read_more(&mut stdin, buf, size, size + 1)? {
            Some(now) if size < now && buf[size] == b'\n' => return Ok(Some(size)),
            Some(now) => size = now,
            None => return Ok(last_line(size)),
        }
    }
    Err(Error::from_raw_os_error(EINTR))
}

// Reads a line of standard input, byte by byte, so that nothing behind it is read; its newline is
// not counted. Of a line that does not fit the buffer's bytes are read. The last line may have no
// newline. There is none where the input ends before one begins.
pub fn read_line(rt: &HostRuntime, buf: &mut [u8]) -> Result<Option<usize>, Told>
    ensures { IfOk result (λ line. IfSome line (λ count. IsPrefixLen count buf.new)) }
{
    next_line(rt, buf).map_err(|error| tell(rt, STANDARD_INPUT, error))
}
