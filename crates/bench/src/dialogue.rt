// The dialogue of the desk: a line is written before each line is read, so that a person or a
// program at the other end of two pipes can drive it.
use crate::output::write_both;
use desk::Desk;
use report::{INPUT, LINE, OUTPUT, Turned, begin, input_ended, turn};
use streams::{Told, read_file, read_line};

// The bytes of a buffer for a line: one more than a line may have, so that a longer one is seen to
// be too long.
const LINE_BUFFER: usize = LINE + 1;

// A dialogue between two turns: the desk, and how many lines that are no answer may still come.
#[derive(Clone, Copy)]
struct Talk {
    desk: Desk,
    left: u8,
}

// What a turn leaves: nothing where the dialogue is over.
fn left_by(turned: Turned) -> Option<Talk> {
    let talk = Talk {
        desk: turned.desk,
        left: turned.left,
    };
    if turned.over { None } else { Some(talk) }
}

// Tells that the input ended.
fn tell_end(rt: &HostRuntime) -> Result<(), Told> {
    let mut bytes = [0u8; OUTPUT];
    let written = input_ended(&mut bytes);
    write_both(rt, &bytes, written)
}

impl Talk {
    // The first line of a sheet's dialogue.
    fn begin(rt: &HostRuntime, sheet: &[u8]) -> Result<Option<Talk>, Told> {
        let mut bytes = [0u8; OUTPUT];
        let turned = begin(sheet, &mut bytes);
        write_both(rt, &bytes, turned.written)?;
        Ok(left_by(turned))
    }

    // The turn of a line: writes what the desk says to it.
    fn hear(self, rt: &HostRuntime, line: &[u8]) -> Result<Option<Talk>, Told> {
        let mut bytes = [0u8; OUTPUT];
        let turned = turn(self.desk, self.left, line, &mut bytes);
        write_both(rt, &bytes, turned.written)?;
        Ok(left_by(turned))
    }

    // One turn: reads a line, and answers it.
    fn exchange(self, rt: &HostRuntime) -> Result<Option<Talk>, Told> {
        let mut line = [0u8; LINE_BUFFER];
        match read_line(rt, &mut line)? {
            Some(size) => self.hear(rt, &line[..size]),
            None => {
                tell_end(rt)?;
                Ok(None)
            }
        }
    }
}

// The whole dialogue of a sheet. A proved loop has to end, so it counts its turns, up to a number
// that no run reaches.
fn lead(rt: &HostRuntime, sheet: &[u8]) -> Result<(), Told> {
    let mut talk = Talk::begin(rt, sheet)?;
    for _ in 0..u64::MAX {
        match talk {
            Some(now) => talk = now.exchange(rt)?,
            None => break,
        }
    }
    Ok(())
}

// Reads the sheet of a file, and leads the dialogue.
pub(crate) fn converse(rt: &HostRuntime, path: &[u8]) -> Result<(), Told> {
    let mut sheet = [0u8; INPUT];
    let size = read_file(rt, path, &mut sheet)?;
    lead(rt, &sheet[..size])
}
