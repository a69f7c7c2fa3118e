// Telling on standard error what failed.
ghost use Rattle.std.specs.Prelude.{◌≤◌, length};

use crate::output::write;
use std::io::{Cursor, Error, Write};

// The bytes of a buffer for an error's text. The C library's texts have up to 50 bytes.
const TEXT: usize = 128;

// What stands behind the text where the system gave the error.
const NUMBER: &[u8] = b" (os error ";

// That something failed, and was told on standard error.
#[derive(Clone, Copy)]
pub struct Told;

// How many bytes of an error's text stand before its number; all where it has none.
fn before_number(text: &[u8]) -> usize
    ensures { result ≤ length text.now }
{
    let mut parts = text.windows(NUMBER.len());
    parts.position(|part| part == NUMBER).unwrap_or(text.len())
}

// Writes a line to standard error: what failed, as the caller names it, a colon and the error's
// text. Where standard error fails nothing is left to tell it on.
pub(crate) fn tell(rt: &HostRuntime, what: &[u8], error: Error) -> Told {
    let mut text = Cursor::new([0u8; TEXT]);
    let _ = write!(text, "{error}");
    let written = text.position() as usize;
    let bytes = text.into_inner();
    let size = before_number(&bytes[..written.min(TEXT)]);
    let mut stderr = rt.stderr();
    let _ = write(&mut stderr, what);
    let _ = write(&mut stderr, b": ");
    let _ = write(&mut stderr, &bytes[..size]);
    let _ = write(&mut stderr, b"\n");
    Told
}
