//! The input, line by line.

ghost use Rattle.std.specs.Prelude.{◌≡◌, [], ◌∷◌, take};
ghost use Rattle.vector_run.specs.Lines.{is_header, TakesLine, TakesRest, Took};

use crate::difference::Difference;
use crate::judging::judge;
use crate::taken::Taken;
use crate::tally::Tally;
use std::io::Read;
use streams::read_full;
use vector_text::fields::field;

/// Whether a line is a header before the first case.
#[tactic(auto, unfolding(text::specs::Ascii::ascii))]
fn is_header(line: &[u8], tally: Tally) -> bool
    ensures { result ≡ is_header tally line.now }
{
    tally.cases == 0 && field(line, 1) == b"kind".as_slice()
}

/// Judges a line, but for the header. One as long as the room for it may be cut, and is malformed.
fn take_line(line: &[u8], tally: Tally, to: &impl Print) -> Tally
    ensures { TakesLine line.now tally result }
{
    if line.len() >= 1024 {
        return tally.counting(Err(Difference::Malformed), to);
    }
    if is_header(line, tally) {
        return tally;
    }
    tally.counting(judge(line), to)
}

impl Taken {
    /// Takes a byte of the input: holds it, or judges the line that it ends.
    fn take_byte(&mut self, byte: u8, to: &impl Print)
        ensures { Took self.old (byte ∷ []) self.new }
    {
        if byte == b'\n' {
            self.tally = take_line(&self.line[..self.held], self.tally, to);
            self.held = 0;
        } else if self.held < self.line.len() {
            self.line[self.held] = byte;
            self.held += 1;
        }
    }

    /// Takes bytes of the input.
    fn take_bytes(&mut self, bytes: &[u8], to: &impl Print)
        ensures { Took self.old bytes.now self.new }
    {
        for &byte in bytes {
            self.take_byte(byte, to);
        }
    }

    /// The tally at the input's end: a last line that no newline ends is judged too.
    fn rest(&self, to: &impl Print) -> Tally
        ensures { TakesRest self.now.tally (take self.now.held self.now.line) result }
    {
        if self.held == 0 {
            return self.tally;
        }
        take_line(&self.line[..self.held], self.tally, to)
    }
}

/// Takes all of the input. Nothing says that it ends, and a loop has to: no input uses so many turns up.
pub fn take_all<R: Read>(from: &mut R, to: &impl Print) -> Tally {
    let mut taken = Taken {
        tally: Tally {
            cases: 0,
            differing: 0,
        },
        line: [0; 1024],
        held: 0,
    };
    // Fixed, since this cannot fail and a `Vec` can.
    let mut chunk = [0; 4096];
    for _ in 0..u64::MAX {
        let n = read_full(from, &mut chunk);
        if n == 0 {
            return taken.rest(to);
        }
        taken.take_bytes(&chunk[..n], to);
    }
    taken.tally
}
