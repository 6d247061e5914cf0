//! The block check: can the code be cut into instructions, and does every displacement land on one of their starts?
#![tactic(auto)]

mod dividing;
mod landing;
mod marks;

ghost use Rattle.std.specs.Prelude.{◌≡◌, length, replicate};
ghost use Rattle.blockcheck.specs.Blocks.{number_of, value_of, Sized, Judged};
ghost use Rattle.blockcheck.specs.Passes.{Concluded, finished};

use crate::dividing::divide;
use crate::landing::first_astray;
use crate::marks::finish;

/// The address of the code's first byte.
pub const CODE: u32 = 0x0001_0000;

/// The most bytes of code.
pub const MOST_BYTES: usize = 65_536;

/// Why a block is refused.
#[derive(Clone, Copy, Debug, PartialEq, Eq)]
pub enum Refusal {
    /// The code has no byte, or more than 65,536.
    Length,
    /// The mark area is not as long as the code.
    Marks,
    /// The code ends inside the instruction at this offset.
    Cut(usize),
    /// No instruction begins at this offset.
    Unknown(usize),
    /// The jump, call or loop at this offset leads to no start.
    Astray(usize),
}

impl Refusal {
    /// The number that callers get: 10, 14, 21, 22 or 23, in the order of the reasons.
    pub fn number(self) -> u32
        ensures { result ≡ number_of (Err self) }
    {
        match self {
            Refusal::Length => 10,
            Refusal::Marks => 14,
            Refusal::Cut(_) => 21,
            Refusal::Unknown(_) => 22,
            Refusal::Astray(_) => 23,
        }
    }

    /// The offset in the code that comes with it; 0 where a length is wrong.
    pub fn offset(self) -> usize
        ensures { result ≡ value_of (Err self) }
    {
        match self {
            Refusal::Length | Refusal::Marks => 0,
            Refusal::Cut(at) | Refusal::Unknown(at) | Refusal::Astray(at) => at,
        }
    }
}

// Code and marks stay two parameters, as callers lend them.

/// The answer for code and marks of one length. The marks are left as the passes need them.
fn judge(code: &[u8], marks: &mut [u8]) -> Result<usize, Refusal>
    requires { Sized code.now × (length marks.old ≡ length code.now) }
    ensures { Concluded code.now result (finished result marks.new) }
{
    marks.fill(0);
    let count = divide(code, marks)?;
    match first_astray(code, marks) {
        Some(at) => Err(Refusal::Astray(at)),
        None => Ok(count),
    }
}

/// Checks a block of code and marks its starts: the count of its instructions.
/// A refusal leaves no mark, or none changed where a length is wrong.
pub fn check(code: &[u8], marks: &mut [u8]) -> Result<usize, Refusal>
    ensures { Judged code.now marks.old (number_of result) (value_of result) marks.new }
{
    if code.is_empty() || code.len() > MOST_BYTES {
        return Err(Refusal::Length);
    }
    if marks.len() != code.len() {
        return Err(Refusal::Marks);
    }
    let judged = judge(code, marks);
    finish(judged, marks);
    judged
}
