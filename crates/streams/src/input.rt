// Standard input or a file, read to its end or until the buffer is full. What the bytes are no
// contract can say; it says how many count.
ghost use Rattle.std.specs.Prelude.{◌≡◌, ◌≤◌, length, IfOk, IfSome};
ghost use Rattle.io.specs.Counts.{IsPrefixLen};
ghost use Rattle.streams.specs.Input.{step_after};

use crate::telling::{Told, tell};
use std::fs::File;
use std::io;
use std::io::{Error, ErrorKind, Read};
use std::str::from_utf8;

// The name of standard input where its failures are told.
pub const STANDARD_INPUT: &[u8] = b"standard input";

// The bytes of the longest path and of the NUL behind it.
const PATH_MAX: usize = 4_096;

// The C library's errors of a read that a signal interrupted, of a path that holds a NUL, of one
// that is too long, and of one that is not UTF-8, which std cannot open.
pub const EINTR: i32 = 4;

const EINVAL: i32 = 22;

const ENAMETOOLONG: i32 = 36;

const EILSEQ: i32 = 84;

// What one read tells: how many bytes it moved, none where a signal interrupted it; or `None` where
// the input has ended.
fn step_after(read: io::Result<usize>) -> io::Result<Option<usize>>
    ensures { result ≡ step_after read }
{
    match read {
        Ok(0) => Ok(None),
        Ok(moved) => Ok(Some(moved)),
        Err(error) if error.kind() == ErrorKind::Interrupted => Ok(Some(0)),
        Err(error) => Err(error),
    }
}

// One read behind the bytes that are there, and up to a place of the buffer: how many there are then,
// as many as before where a signal interrupted it; or `None` where the input has ended.
pub fn read_more<R: Read>(
    reader: &mut R,
    buf: &mut [u8],
    size: usize,
    end: usize,
) -> io::Result<Option<usize>>
    requires size_le_end { size ≤ end }
    requires end_in_bounds { end ≤ length buf.old }
    ensures { IfOk result (λ more. IfSome more (λ count. IsPrefixLen count buf.new)) }
{
    let rest = &mut buf[size..end];
    match step_after(reader.read(rest))? {
        Some(moved) => Ok(Some(size + moved)),
        None => Ok(None),
    }
}

// Reads until the input ends or the buffer is full: a caller that lends one byte more than it takes
// sees that an input is too long. Nothing behind that is read. A proved loop has to end, so it
// counts its turns, up to a number that no run reaches; reaching it would be a failure. std's
// `read_to_end` needs a heap, and its `copy` does not say that what it moved fits the buffer.
fn read_all<R: Read>(reader: &mut R, buf: &mut [u8]) -> io::Result<usize>
    ensures { IfOk result (λ count. IsPrefixLen count buf.new) }
{
    let mut size = 0;
    for _ in 0..u64::MAX {
        if size == buf.len() {
            return Ok(size);
        }
        let end = buf.len();
        match read_more(reader, buf, size, end)? {
            Some(now) => size = now,
            None => return Ok(size),
        }
    }
    Err(Error::from_raw_os_error(EINTR))
}

// Reads standard input until it ends or the buffer is full.
pub fn read_input(rt: &HostRuntime, buf: &mut [u8]) -> Result<usize, Told>
    ensures { IfOk result (λ count. IsPrefixLen count buf.new) }
{
    read_all(&mut rt.stdin(), buf).map_err(|error| tell(rt, STANDARD_INPUT, error))
}

// Opens a file for reading.
fn open(rt: &HostRuntime, path: &[u8]) -> io::Result<File> {
    if PATH_MAX <= path.len() {
        return Err(Error::from_raw_os_error(ENAMETOOLONG));
    }
    if path.contains(&0) {
        return Err(Error::from_raw_os_error(EINVAL));
    }
    let text = from_utf8(path).map_err(|_| Error::from_raw_os_error(EILSEQ))?;
    File::open(rt, text)
}

// Opens a file, and reads it until it ends or the buffer is full.
fn open_and_read(rt: &HostRuntime, path: &[u8], buf: &mut [u8]) -> io::Result<usize>
    ensures { IfOk result (λ count. IsPrefixLen count buf.new) }
{
    read_all(&mut open(rt, path)?, buf)
}

// Reads a file until it ends or the buffer is full. One that cannot be opened is told by its name.
pub fn read_file(rt: &HostRuntime, path: &[u8], buf: &mut [u8]) -> Result<usize, Told>
    ensures { IfOk result (λ count. IsPrefixLen count buf.new) }
{
    open_and_read(rt, path, buf).map_err(|error| tell(rt, path, error))
}
