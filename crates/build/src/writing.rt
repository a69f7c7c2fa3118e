// The prescribed sequence, written into a buffer from the front. Every function here writes only
// what fits and goes on counting, so the same code tells the length in advance: given an empty
// buffer, it writes nothing.
ghost use Rattle.std.specs.Prelude.{◌+◌, ◌<◌, ◌≤◌, length};
ghost use Rattle.machine.specs.Limits.{most_sequence};
ghost use Rattle.machine.specs.Machine.{meaning};
ghost use Rattle.build.specs.Sequence.{sequence, T, most_block};
ghost use Rattle.build.specs.Sequence.{approach as approach_of};
ghost use Rattle.build.specs.Sequence.{test as test_of};
ghost use Rattle.build.specs.Sequence.{state_tests};
ghost use Rattle.build.specs.Sequence.{tests as tests_of};
ghost use Rattle.build.specs.Sequence.{opening as opening_of};
ghost use Rattle.build.specs.Writing.{most_approach, most_test, most_state_tests, most_tests, WriteRequires, Adds};
ghost use Rattle.build.specs.Writing.{Moves, PartRequires};

use crate::table::{ROW, following};
use machine::Machine;

// How many commands are written, and the machine's state after them. The buffer is no part of it, nor
// the state that is asked for: every part of the sequence hands on another place and state, in one
// buffer, and that such a state is below n is asked of arguments, which no value keeps.
#[derive(Clone, Copy)]
pub struct Position {
    pub at: usize,
    pub state: u8,
}

// Copies commands to a place, where they fit; gives the place behind them.
fn put(xs: &[u8], at: usize, buffer: &mut [u8]) -> usize
    requires { at + length xs.now ≤ most_sequence }
    ensures { Adds buffer.old at xs.now buffer.new result }
{
    sheet::put(xs, at, buffer);
    at + xs.len()
}

// What prescribes the sequence: the machine, the word, and the table of the transfers B(s), which
// `ready` says to be all that writing needs.
#[derive(Clone, Copy)]
pub struct Sequence<'a> {
    pub machine: Machine,
    pub word: &'a [u8],
    pub rows: &'a [u8],
    ghost ready: { WriteRequires (meaning machine) word.now rows.now },
}

impl Sequence<'_> {
    // T(s): the word, then the transfer of its row.
    fn block(&self, s: u8, at: usize, buffer: &mut [u8]) -> usize
        requires { PartRequires (meaning self.now.machine).n at s most_block }
        ensures { Adds buffer.old at (T (meaning self.now.machine) self.now.word.now s) buffer.new result }
    {
        let middle = put(self.word, at, buffer);
        let from = s as usize * ROW;
        let first = from + 1;
        let end = first + self.rows[from] as usize;
        put(&self.rows[first..end], middle, buffer)
    }

    // The block of the present state, as long as the machine is not in state s: a `while`, since how
    // many states are passed over is not known before.
    fn approach(&self, from: Position, s: u8, buffer: &mut [u8]) -> usize
        requires part_requires { PartRequires (meaning self.now.machine).n from.at from.state most_approach }
        requires s_bound { s < (meaning self.now.machine).n }
        ensures { let M = meaning self.now.machine in
            Adds buffer.old from.at (approach_of M self.now.word.now M.n from.state s) buffer.new result }
    {
        let mut at = from.at;
        let mut present = from.state;
        while present != s {
            at = self.block(present, at, buffer);
            present = following(self.machine.n, present);
        }
        at
    }

    // The test of an entry: the approach, the command, T of the state it leads to.
    fn test(&self, from: Position, s: u8, c: u8, buffer: &mut [u8]) -> Position
        requires part_requires { PartRequires (meaning self.now.machine).n from.at from.state most_test }
        requires s_bound { s < (meaning self.now.machine).n }
        requires c_bound { c < (meaning self.now.machine).k }
        ensures { let M = meaning self.now.machine in
            Moves M buffer.old from.at from.state (test_of M self.now.word.now from.state s c) buffer.new result }
    {
        let reached = self.approach(from, s, buffer);
        let tested = put(&[c], reached, buffer);
        let t = self.machine.next_state(s, c);
        let at = self.block(t, tested, buffer);
        let state = following(self.machine.n, t);
        Position { at, state }
    }

    // The tests of all entries of a state.
    fn state_tests(&self, from: Position, s: u8, buffer: &mut [u8]) -> Position
        requires part_requires { PartRequires (meaning self.now.machine).n from.at from.state most_state_tests }
        requires s_bound { s < (meaning self.now.machine).n }
        ensures { let M = meaning self.now.machine in
            Moves M buffer.old from.at from.state (state_tests M self.now.word.now from.state s M.k)
            buffer.new result }
    {
        let mut p = from;
        for c in 0..self.machine.k {
            p = self.test(p, s, c, buffer);
        }
        p
    }

    // The tests of all states.
    fn tests(&self, from: Position, buffer: &mut [u8]) -> Position
        requires { PartRequires (meaning self.now.machine).n from.at from.state most_tests }
        ensures { let M = meaning self.now.machine in
            Moves M buffer.old from.at from.state (tests_of M self.now.word.now from.state M.n) buffer.new result }
    {
        let mut p = from;
        for s in 0..self.machine.n {
            p = self.state_tests(p, s, buffer);
        }
        p
    }

    // The opening walk: T of the start and of each next state, n + 1 in all, so that the last is T of
    // the start again.
    fn opening(&self, buffer: &mut [u8]) -> Position
        ensures { let M = meaning self.now.machine in
            Moves M buffer.old 0 M.start (opening_of M self.now.word.now) buffer.new result }
    {
        let mut at = 0;
        let mut present = self.machine.start;
        for _i in 0..=self.machine.n {
            at = self.block(present, at, buffer);
            present = following(self.machine.n, present);
        }
        Position { at, state: present }
    }

    // The whole sequence; gives its length.
    pub fn write(&self, buffer: &mut [u8]) -> usize
        ensures { Adds buffer.old 0 (sequence (meaning self.now.machine) self.now.word.now) buffer.new result }
    {
        let opened = self.opening(buffer);
        self.tests(opened, buffer).at
    }
}
