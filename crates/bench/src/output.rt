// What is written, to both streams.
ghost use Rattle.std.specs.Prelude.{◌≤◌, is_ok, length, take};
ghost use Rattle.streams.specs.Output.{WrittenAll};

use report::{OUTPUT, Written};
use streams::{Told, write_error, write_output};

// Writes to standard output what is for it, and to standard error what stands behind that. Once
// standard output has failed nothing more is written. Where standard error fails nothing is left to
// tell it on, and a program has no exit status to set: its answer is not used.
pub fn write_both(rt: &HostRuntime, bytes: &[u8; OUTPUT], written: Written) -> Result<(), Told>
    requires out { written.out ≤ written.end }
    requires end { written.end ≤ length bytes.now }
    ensures { WrittenAll (take written.out bytes.now) (is_ok result) }
{
    write_output(rt, &bytes[..written.out])?;
    let _ = write_error(rt, &bytes[written.out..written.end]);
    Ok(())
}
