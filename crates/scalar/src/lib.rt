//! Singles by their bits: what ADDSS MULSS SUBSS MINSS DIVSS MAXSS give, and the flags word of COMISS.
#![tactic(auto)]

ghost use Rattle.std.specs.Prelude.{◌≡◌, true, false, ◌||◌};
ghost use Rattle.flags.specs.Word.{flags_of};
ghost use Rattle.scalar.specs.Singles.{is_single_nan, quieted, first_nan, result_of, computed, answer, compared};

use flags::Flags;

/// The operations that compute a single of two, in the order of their opcodes.
#[derive(Clone, Copy, Debug, PartialEq, Eq)]
pub enum Compute {
    Add,
    Mul,
    Sub,
    Min,
    Div,
    Max,
}

/// What an XMM register keeps: its low single, by the 32 bits. Each pattern is one.
#[derive(Clone, Copy, Debug, PartialEq, Eq)]
pub struct Xmm {
    pub bits: u32,
}

/// Whether bits are a NaN's.
fn is_nan(bits: u32) -> bool
    ensures { result ≡ is_single_nan bits }
{
    0x7F80_0000 < bits % 0x8000_0000
}

/// A NaN with its quiet bit set.
fn quieted(bits: u32) -> u32
    ensures { result ≡ quieted bits }
{
    bits | 0x0040_0000
}

/// The bits of what an operation on numbers gives; an invalid one gives FFC00000h.
fn result(x: f32) -> u32
    ensures { result ≡ result_of x }
{
    if x.is_nan() { 0xFFC0_0000 } else { x.to_bits() }
}

/// The first operand if it is a NaN, else the second, with its quiet bit set.
fn first_nan(a: u32, b: u32) -> u32
    ensures { result ≡ first_nan a b }
{
    if is_nan(a) {
        return quieted(a);
    }
    quieted(b)
}

/// What an operation gives where an operand is a NaN.
#[tactic(auto, using(crate::proofs::Numbers::rounded_nan, crate::proofs::Numbers::chosen_nan), unfolding(crate::specs::Singles::computed))]
fn of_nan(op: Compute, a: u32, b: u32) -> u32
    ensures { (is_single_nan a || is_single_nan b) ≡ true → result ≡ computed op a b }
{
    match op {
        Compute::Add | Compute::Mul | Compute::Sub | Compute::Div => first_nan(a, b),
        Compute::Min | Compute::Max => b,
    }
}

/// What an operation gives of numbers.
fn of_numbers(op: Compute, a: u32, b: u32) -> u32
    requires { (is_single_nan a ≡ false) × (is_single_nan b ≡ false) }
    ensures { result ≡ computed op a b }
{
    let x = f32::from_bits(a);
    let y = f32::from_bits(b);
    match op {
        Compute::Add => result(x + y),
        Compute::Mul => result(x * y),
        Compute::Sub => result(x - y),
        Compute::Min => if x < y { a } else { b },
        Compute::Div => result(x / y),
        Compute::Max => if y < x { a } else { b },
    }
}

/// What an operation gives.
pub fn computed(op: Compute, a: u32, b: u32) -> u32
    ensures { result ≡ computed op a b }
{
    if is_nan(a) || is_nan(b) {
        return of_nan(op, a, b);
    }
    of_numbers(op, a, b)
}

/// The word of flags: ZF, PF and CF as given, DF as in the old word, the others clear.
fn answer(zf: bool, pf: bool, cf: bool, word: u32) -> u32
    ensures { flags_of result ≡ answer zf pf cf (flags_of word) }
{
    flags::pack(Flags {
        cf,
        pf,
        af: false,
        zf,
        sf: false,
        df: flags::unpack(word).df,
        of: false,
    })
}

/// The word of the flags that comparing two numbers gives.
fn order(a: u32, b: u32, word: u32) -> u32
    requires { (is_single_nan a ≡ false) × (is_single_nan b ≡ false) }
    ensures { flags_of result ≡ compared a b (flags_of word) }
{
    let x = f32::from_bits(a);
    let y = f32::from_bits(b);
    if y < x {
        return answer(false, false, false, word);
    }
    if x < y {
        return answer(false, false, true, word);
    }
    answer(true, false, false, word)
}

/// The word of the flags after COMISS.
#[tactic(auto, using(crate::proofs::Numbers::compared_nan))]
pub fn compared(a: u32, b: u32, word: u32) -> u32
    ensures { flags_of result ≡ compared a b (flags_of word) }
{
    if is_nan(a) || is_nan(b) {
        return answer(true, true, true, word);
    }
    order(a, b, word)
}
