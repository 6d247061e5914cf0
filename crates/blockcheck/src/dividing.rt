//! The pass that cuts the code into instructions and marks their starts.
ghost use Rattle.std.specs.Prelude.{◌≡◌, length, replicate};
ghost use Rattle.grammar.specs.Relative.{relative_of};
ghost use Rattle.blockcheck.specs.Passes.{mark_of, refusal_at, Divided};

use crate::Refusal;
use grammar::instruction::{Decoded, Fault};
use grammar::reader::read;
use grammar::relative::relative_of;

/// The mark of an instruction's start: 2 where a displacement is left to look at.
// Numbers, since marks are bytes that the caller lends; what is 2 here is 1 in the end.
fn mark_of(d: Decoded) -> u8
    ensures { result ≡ mark_of (relative_of d) }
{
    match relative_of(d) {
        None => 1,
        Some(_) => 2,
    }
}

/// Why a block is refused in which no instruction stands at an offset.
fn refusal_at(at: usize, fault: Fault) -> Refusal
    ensures { result ≡ refusal_at at fault }
{
    match fault {
        Fault::Cut => Refusal::Cut(at),
        Fault::Unknown => Refusal::Unknown(at),
    }
}

/// Cuts the code, and marks each start on cleared marks: the count of instructions.
// Code and marks apart, as in `check`.
pub fn divide(code: &[u8], marks: &mut [u8]) -> Result<usize, Refusal>
    requires { marks.old ≡ replicate (length code.now) 0 }
    ensures { Divided code.now result marks.new }
{
    let mut at = 0;
    let mut count = 0;
    // A `while`: each mark is written by its offset, and the offset goes on by the instruction's length.
    while at < code.len() {
        let d = read(code, at).map_err(|fault| refusal_at(at, fault))?;
        marks[at] = mark_of(d);
        at += d.length;
        count += 1;
    }
    Ok(count)
}
