//! Sums, differences and logic at a size: the value with the word of its flags, for operations of two operands and of one.
#![tactic(auto)]

mod integers;

ghost use Rattle.std.specs.Prelude.{◌≡◌, ◌<◌, ◌^◌, pos};
ghost use Rattle.std.proofs.Math.IntN.{sub_ℕ};
ghost use Rattle.width.specs.Numbers.{Is, rest, outside};
ghost use Rattle.flags.specs.Word as Word;
ghost use Rattle.arith.specs.Sums.{sum, difference, value_of, carries, adjusts, overflows, flags_of};
ghost use Rattle.arith.specs.Binary.{binary_value, binary_flags, logic_flags, sum_flags, difference_flags};
ghost use Rattle.arith.specs.Single.{single_value, single_flags};
ghost use Rattle.arith.specs.Worked.{Works};

use integers::{Add, Subtract, carried, worked};
use width::Size;

/// The operations of two operands, in the order of their opcodes.
#[derive(Clone, Copy, Debug, PartialEq, Eq)]
pub enum Binary {
    Add,
    Or,
    Adc,
    Sbb,
    And,
    Sub,
    Xor,
    Cmp,
}

/// The operations of one operand.
#[derive(Clone, Copy, Debug, PartialEq, Eq)]
pub enum Single {
    Inc,
    Dec,
    Not,
    Neg,
}

/// A value, and the word of the flags that come with it.
// A plain word: the clauses say by it what flags it means (`Works`).
#[derive(Clone, Copy, Debug, PartialEq, Eq)]
pub struct Worked {
    pub value: u32,
    pub word: u32,
}

/// The rest of v at the size as the result of a logic operation, and the word of its flags.
fn logic(w: Size, v: u32, word: u32) -> Worked
    ensures { Works (rest w (pos v)) (logic_flags w (rest w (pos v)) (Word.flags_of word)) result }
{
    let r = w.low(u64::from(v));
    let af = flags::undefined(flags::unpack(word).af);
    Worked {
        value: r,
        word: flags::resulting_word(w, r, false, af, false, word),
    }
}

/// What an operation of two operands gives, and the word of the flags after it.
pub fn binary_worked(op: Binary, w: Size, a: u32, b: u32, word: u32) -> Worked
    ensures { Works (binary_value op w a b (Word.flags_of word).cf) (binary_flags op w a b (Word.flags_of word)) result }
{
    match op {
        Binary::Add => carried::<Add>(false, w, a, b, word),
        Binary::Or => logic(w, a | b, word),
        Binary::Adc => carried::<Add>(flags::unpack(word).cf, w, a, b, word),
        Binary::Sbb => carried::<Subtract>(flags::unpack(word).cf, w, a, b, word),
        Binary::And => logic(w, a & b, word),
        Binary::Xor => logic(w, a ^ b, word),
        Binary::Sub | Binary::Cmp => carried::<Subtract>(false, w, a, b, word),
    }
}

/// What an operation of one operand gives, and the word of the flags after it.
pub fn single_worked(op: Single, w: Size, a: u32, word: u32) -> Worked
    ensures { Works (single_value op w a) (single_flags op w a (Word.flags_of word)) result }
{
    match op {
        Single::Inc => worked::<Add>(false, w, a, 1, flags::unpack(word).cf, word),
        Single::Dec => worked::<Subtract>(false, w, a, 1, flags::unpack(word).cf, word),
        Single::Not => {
            let value = w.low(0xFFFF_FFFF) - w.low(u64::from(a));
            Worked { value, word }
        }
        Single::Neg => carried::<Subtract>(false, w, 0, a, word),
    }
}
