// What is written: it waits in a buffer, and goes to standard output where the buffer is full.
ghost use Rattle.std.specs.Prelude.{◌≤◌, length};

use sheet::put;
use std::fmt;
use streams::write_output;

// Standard output, and a lent buffer, since programs have no heap, whose first `used` bytes wait for
// it. An error says that standard output has failed, which was told on standard error; nothing is to be
// written after one.
#[derive(Drop)]
pub(crate) struct Output<'a> {
    rt: &'a HostRuntime,
    buffer: &'a mut [u8],
    used: usize,
    ghost in_bounds: { used ≤ length buffer.now },
}

impl<'a> Output<'a> {
    pub(crate) fn new(rt: &'a HostRuntime, buffer: &'a mut [u8]) -> Self {
        Output {
            rt,
            buffer,
            used: 0,
        }
    }

    // Writes what waits.
    pub(crate) fn flush(&mut self) -> fmt::Result {
        let size = self.used;
        self.used = 0;
        write(self.rt, &self.buffer[..size])
    }

    // Bytes: they wait where they fit behind what waits already; if need be that is written first. More
    // than the buffer has are written at once.
    pub(crate) fn bytes(&mut self, bytes: &[u8]) -> fmt::Result {
        if self.buffer.len() - self.used < bytes.len() {
            self.flush()?;
        }
        if self.buffer.len() - self.used < bytes.len() {
            return write(self.rt, bytes);
        }
        self.used = put(bytes, self.used, self.buffer);
        Ok(())
    }
}

impl fmt::Write for Output<'_> {
    fn write_str(&mut self, s: &str) -> fmt::Result {
        self.bytes(s.as_bytes())
    }
}

// Writes bytes to standard output.
fn write(rt: &HostRuntime, bytes: &[u8]) -> fmt::Result {
    write_output(rt, bytes).map_err(|_| fmt::Error)
}
