// The dialogue of `bench desk`: its beginning, a turn for each line, and the end of the input. What
// is written stands in a lent buffer.
ghost use Rattle.std.specs.Prelude.{◌≡◌, ◌+◌, ◌≤◌, length};
ghost use Rattle.facts.specs.Decimal.{bytes};
ghost use Rattle.desk.specs.Desk.{is_end as is_end_of};
ghost use Rattle.report.specs.Pieces.{Prints, PutsNext};
ghost use Rattle.report.specs.Output.{Writes};
ghost use Rattle.report.specs.Dialogue.{longest_reason, longest_stop, stop_line, others_line, input_ended};
ghost use Rattle.report.specs.Dialogue.{reply as reply_in, Begins, Turns};

use crate::lines::{first_line, order_line};
use crate::numbers::number_in;
use crate::output::{OUTPUT, Written};
use crate::pieces::Cursor;
use desk::{Desk, Order, Started, start, step};

// The most bytes of a line, its newline not counted.
pub const LINE: usize = 80;

// How many lines that are no answer stop the dialogue.
const OTHERS: u8 = 100;

// What a line is. No `Result`: of the two kinds that are no answer nothing is done alike, and no
// caller hands them on.
#[derive(Clone, Copy)]
pub enum Reply {
    Answer { value: u8 },
    Other,
    Long,
}

// The desk after a turn, how many lines that are no answer may still come, whether the dialogue is
// over, and what is written. No `Option` of desk and number in place of `over`: `turn` promises both
// of a turn that ends, too (`turn_desk`, `turn_left`).
#[derive(Clone, Copy)]
pub struct Turned {
    pub desk: Desk,
    pub left: u8,
    pub over: bool,
    pub written: Written,
}

// What a line is: an answer is one to three digits of a number up to 255.
fn reply_of(line: &[u8]) -> Reply
    ensures { result ≡ reply_in line.now }
{
    if LINE < line.len() {
        return Reply::Long;
    }
    if line.is_empty() || 3 < line.len() {
        return Reply::Other;
    }
    match number_in(line, 255) {
        Some(value) => Reply::Answer { value: value as u8 },
        None => Reply::Other,
    }
}

// That the dialogue stops, and why.
fn put_stop(reason: &[u8], line: &mut Cursor)
    requires short { length reason.now ≤ longest_reason }
    requires room { line.old.end + longest_stop ≤ length line.old.buffer.now }
    ensures { PutsNext (stop_line reason.now) line.old line.new }
{
    line.put(b"bench: the dialogue stops: ");
    line.put(reason);
    line.put(b"\n");
}

// The same, at the start of a buffer.
fn stop_line(reason: &[u8], out: &mut [u8; OUTPUT]) -> usize
    requires { length reason.now ≤ longest_reason }
    ensures { Prints (stop_line reason.now) out.old out.new result }
{
    let mut line = Cursor::new(out);
    put_stop(reason, &mut line);
    line.end
}

// What is told of a line that is no answer.
fn others_line(left: u8, out: &mut [u8; OUTPUT]) -> usize
    ensures { Prints (others_line left) out.old out.new result }
{
    let mut line = Cursor::new(out);
    line.put(b"bench: an answer is one to three digits, at most 255\n");
    if left <= 1 {
        put_stop(b"100 lines were no answer", &mut line);
    }
    line.end
}

fn is_end(order: Order) -> bool
    ensures { result ≡ is_end_of order }
{
    !matches!(order, Order::Command { .. })
}

// Begins a dialogue: the first command of a sheet, or its refusal.
pub fn begin(sheet: &[u8], out: &mut [u8; OUTPUT]) -> Turned
    ensures { Begins sheet.now out.old out.new result }
{
    let Started { first, desk } = start(sheet);
    Turned {
        desk,
        left: OTHERS,
        over: first.is_err(),
        written: Written::to_output(first_line(first, out)),
    }
}

// A turn of the dialogue: the desk, how many lines that are no answer may still come, and a line.
pub fn turn(desk: Desk, left: u8, line: &[u8], out: &mut [u8; OUTPUT]) -> Turned
    ensures { Turns desk left line.now out.old out.new result }
{
    match reply_of(line) {
        Reply::Answer { value } => {
            let stepped = step(desk, value);
            let order = stepped.order;
            Turned {
                desk: stepped.desk,
                left,
                over: is_end(order),
                written: Written::to_output(order_line(order, out)),
            }
        }
        Reply::Other => Turned {
            desk,
            left: left.saturating_sub(1),
            over: left <= 1,
            written: Written::to_error(others_line(left, out)),
        },
        Reply::Long => Turned {
            desk,
            left,
            over: true,
            written: Written::to_error(stop_line(b"a line is longer than 80 bytes", out)),
        },
    }
}

// Tells that the input ended before the dialogue did.
pub fn input_ended(out: &mut [u8; OUTPUT]) -> Written
    ensures { Writes input_ended out.old out.new result }
{
    Written::to_error(stop_line(b"the input ended", out))
}
