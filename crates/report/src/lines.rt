// The output lines, and how a refusal and the answer of a service that writes go to the streams. A
// line stands at the start of the buffer; later bytes stay as they were.
ghost use Rattle.std.specs.Prelude.{◌≤◌, length};
ghost use Rattle.report.specs.Lines.{longest_label, numbered_line, pass_line, wrong_line, judge_line, open_line};
ghost use Rattle.report.specs.Lines.{certify_line, refusal_line, order_line, first_line};
ghost use Rattle.report.specs.Pieces.{Prints};
ghost use Rattle.report.specs.Output.{on_error, Writes, Tells};

use crate::output::{OUTPUT, Written};
use crate::pieces::Cursor;
use certify::Certification;
use desk::Order;
use judge::Judgement;
use sheet::Refusal;

// A refusal: number, place and phrase.
pub fn refusal_line(refusal: Refusal, out: &mut [u8; OUTPUT]) -> usize
    ensures { Prints (refusal_line refusal.number refusal.place) out.old out.new result }
{
    let mut line = Cursor::new(out);
    line.put_labelled(b"REFUSED ", refusal.number as u64);
    line.put_labelled(b" at ", refusal.place as u64);
    line.put_phrase(refusal.number);
    line.put(b"\n");
    line.end
}

// A refusal as a service whose result is bytes tells it: its line, to standard error.
pub fn refused(refusal: Refusal, out: &mut [u8; OUTPUT]) -> Written
    ensures { Writes (on_error (refusal_line refusal.number refusal.place)) out.old out.new result }
{
    Written::to_error(refusal_line(refusal, out))
}

// What a service that wrote into the buffer answered: those bytes for standard output, or its refusal.
pub fn to_streams(answer: Result<usize, Refusal>, out: &mut [u8; OUTPUT]) -> Written
    ensures { Tells answer out.old out.new result }
{
    match answer {
        Ok(size) => Written::to_output(size),
        Err(refusal) => refused(refusal, out),
    }
}

// A line of a text and a number.
fn numbered(text: &[u8], number: u64, out: &mut [u8; OUTPUT]) -> usize
    requires { length text.now ≤ longest_label }
    ensures { Prints (numbered_line text.now number) out.old out.new result }
{
    let mut line = Cursor::new(out);
    line.put_labelled(text, number);
    line.put(b"\n");
    line.end
}

// That the answers are right: how many, and the end state.
fn passed(size: usize, end: u8, out: &mut [u8; OUTPUT]) -> usize
    ensures { Prints (pass_line size end) out.old out.new result }
{
    let mut line = Cursor::new(out);
    line.put_labelled(b"PASS ", size as u64);
    line.put_labelled(b" end ", end as u64);
    line.put(b"\n");
    line.end
}

// The first wrong answer: its place, what was specified and what was given.
fn wrong(place: usize, specified: u8, given: u8, out: &mut [u8; OUTPUT]) -> usize
    ensures { Prints (wrong_line place specified given) out.old out.new result }
{
    let mut line = Cursor::new(out);
    line.put_labelled(b"WRONG at ", place as u64);
    line.put_labelled(b" want ", specified as u64);
    line.put_labelled(b" got ", given as u64);
    line.put(b"\n");
    line.end
}

// That a sequence is not certified: the open number, and how many places are recognised. One function
// of this and `passed` would take their five parts, which is no plainer.
fn still_open(recognised: usize, number: usize, out: &mut [u8; OUTPUT]) -> usize
    ensures { Prints (open_line recognised number) out.old out.new result }
{
    let mut line = Cursor::new(out);
    line.put_labelled(b"OPEN ", number as u64);
    line.put_labelled(b" recognised ", recognised as u64);
    line.put(b"\n");
    line.end
}

// What judging answers.
#[tactic(auto, unfolding(crate::specs::Lines::unheard_line, crate::specs::Lines::unfinished_line))]
pub fn judge_line(answer: Result<Judgement, Refusal>, out: &mut [u8; OUTPUT]) -> usize
    ensures { Prints (judge_line answer) out.old out.new result }
{
    match answer {
        Ok(Judgement::Pass { size, end }) => passed(size, end, out),
        Ok(
            Judgement::Wrong {
                place,
                specified,
                given,
            },
        ) => wrong(place, specified, given, out),
        Ok(Judgement::Unheard { place }) => numbered(b"UNHEARD at ", place as u64, out),
        Ok(Judgement::Unfinished { number }) => numbered(b"UNFINISHED ", number as u64, out),
        Err(refusal) => refusal_line(refusal, out),
    }
}

// What certifying answers.
#[tactic(auto, unfolding(crate::specs::Lines::certified_line))]
pub fn certify_line(answer: Result<Certification, Refusal>, out: &mut [u8; OUTPUT]) -> usize
    ensures { Prints (certify_line answer) out.old out.new result }
{
    match answer {
        Ok(Certification::Certified { recognised }) => {
            numbered(b"CERTIFIED ", recognised as u64, out)
        }
        Ok(Certification::Open { recognised, number }) => still_open(recognised, number, out),
        Err(refusal) => refusal_line(refusal, out),
    }
}

// What the desk orders.
pub fn order_line(order: Order, out: &mut [u8; OUTPUT]) -> usize
    ensures { Prints (order_line order) out.old out.new result }
{
    match order {
        Order::Command { command } => numbered(b"COMMAND ", command as u64, out),
        Order::Home { after } => numbered(b"HOME after ", after as u64, out),
        Order::Stranger { at } => numbered(b"STRANGER at ", at as u64, out),
    }
}

// What the desk begins with.
pub fn first_line(first: Result<u8, Refusal>, out: &mut [u8; OUTPUT]) -> usize
    ensures { Prints (first_line first) out.old out.new result }
{
    match first {
        Ok(command) => numbered(b"COMMAND ", command as u64, out),
        Err(refusal) => refusal_line(refusal, out),
    }
}
