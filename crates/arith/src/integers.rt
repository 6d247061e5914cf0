//! Sums and differences with a carry: each is one operation over the integers, and value and flags say how its result fits the size.
ghost use Rattle.std.specs.Prelude.{◌≡◌, ◌<◌, ◌≤◌, ◌^◌, Bool, ℤ, pos};
ghost use Rattle.width.specs.Numbers.{Is, rest, beyond, outside, signed};
ghost use Rattle.flags.specs.Word as Word;
ghost use Rattle.arith.specs.Sums.{sum, difference, value_of, carries, adjusts, overflows, flags_of};
ghost use Rattle.arith.specs.Integers.{Means, integer};
ghost use Rattle.arith.specs.Worked.{Works};

use crate::Worked;
use width::Size;

/// An integer, as the difference of two naturals.
#[derive(Clone, Copy, Debug, PartialEq, Eq)]
pub(crate) struct Integer {
    plus: u64,
    minus: u64,
}

impl Integer {
    /// The integer's rest at the size.
    #[inline(always)]
    fn low(self, w: Size) -> u32
        requires plus_bound { self.plus < 2 ^ 34 }
        requires minus_bound { self.minus ≤ 2 ^ 33 }
        ensures { Is w (rest w (integer self)) result }
    {
        w.low(self.plus + 0x2_0000_0000 - self.minus)
    }

    /// Is it none of the numbers below m?
    #[inline(always)]
    fn beyond(self, m: u64) -> bool
        ensures { result ≡ beyond m (integer self) }
    {
        width::beyond(m, self.plus, self.minus)
    }

    /// Is it no signed number of the size? Two sums and two tests, in place of a difference either way.
    #[inline(always)]
    fn outside(self, w: Size) -> bool
        requires plus_bound { self.plus < 2 ^ 34 }
        requires minus_bound { self.minus ≤ 2 ^ 33 }
        ensures { result ≡ outside w (integer self) }
    {
        let h = u64::from(w.half());
        self.plus + h < self.minus || self.minus + h <= self.plus
    }
}

/// An operation of two integers with a carry or a borrow.
pub(crate) trait Sum {
    ghost of: { Bool → ℤ → ℤ → ℤ };

    /// What it gives of two numbers.
    fn of_numbers(c: bool, a: u32, b: u32) -> Integer
        ensures { Means (of c (pos a) (pos b)) result };

    /// What it gives of two numbers of the size, as signed ones.
    fn of_signed(c: bool, w: Size, a: u32, b: u32) -> Integer
        ensures { Means (of c (signed w a) (signed w b)) result };
}

/// 003 "ADC"; "ADD" is the same with no carry.
pub(crate) struct Add;

impl Sum for Add {
    ghost of = { sum };

    #[inline(always)]
    fn of_numbers(c: bool, a: u32, b: u32) -> Integer {
        Integer {
            plus: u64::from(a) + u64::from(b) + u64::from(c),
            minus: 0,
        }
    }

    #[inline(always)]
    fn of_signed(c: bool, w: Size, a: u32, b: u32) -> Integer {
        let x = w.rank(a);
        let y = w.rank(b);
        Integer {
            plus: x + y + u64::from(c),
            minus: w.modulus(),
        }
    }
}

/// 003 "SBB"; "SUB" and "CMP" are the same with no borrow.
pub(crate) struct Subtract;

impl Sum for Subtract {
    ghost of = { difference };

    #[inline(always)]
    fn of_numbers(c: bool, a: u32, b: u32) -> Integer {
        Integer {
            plus: u64::from(a),
            minus: u64::from(b) + u64::from(c),
        }
    }

    #[inline(always)]
    fn of_signed(c: bool, w: Size, a: u32, b: u32) -> Integer {
        let x = w.rank(a);
        let y = w.rank(b);
        Integer {
            plus: x,
            minus: y + u64::from(c),
        }
    }
}

/// The result at the size.
#[inline(always)]
fn value<O: Sum>(c: bool, w: Size, a: u32, b: u32) -> u32
    ensures { Is w (value_of (O.of c) w a b) result }
{
    O::of_numbers(c, a, b).low(w)
}

/// CF: the unsigned result lies outside the size's numbers.
#[inline(always)]
fn carries<O: Sum>(c: bool, w: Size, a: u32, b: u32) -> bool
    ensures { result ≡ carries (O.of c) w a b }
{
    O::of_numbers(c, a, b).beyond(w.modulus())
}

/// AF: the result of the low four bits lies outside the numbers of four bits.
#[inline(always)]
fn adjusts<O: Sum>(c: bool, a: u32, b: u32) -> bool
    ensures { result ≡ adjusts (O.of c) a b }
{
    O::of_numbers(c, a % 16, b % 16).beyond(16)
}

/// OF: the signed result lies outside the size's signed numbers.
#[inline(always)]
fn overflows<O: Sum>(c: bool, w: Size, a: u32, b: u32) -> bool
    ensures { result ≡ overflows (O.of c) w a b }
{
    O::of_signed(c, w, a, b).outside(w)
}

/// The result, and the word of its flags, where CF is as given.
#[inline(always)]
pub(crate) fn worked<O: Sum>(c: bool, w: Size, a: u32, b: u32, cf: bool, word: u32) -> Worked
    ensures { Works (value_of (O.of c) w a b) (flags_of (O.of c) w a b cf (Word.flags_of word)) result }
{
    let v = value::<O>(c, w, a, b);
    let af = adjusts::<O>(c, a, b);
    let of = overflows::<O>(c, w, a, b);
    Worked {
        value: v,
        word: flags::resulting_word(w, v, cf, af, of, word),
    }
}

/// The result, and the word of its flags.
pub(crate) fn carried<O: Sum>(c: bool, w: Size, a: u32, b: u32, word: u32) -> Worked
    ensures { Works (value_of (O.of c) w a b) (flags_of (O.of c) w a b (carries (O.of c) w a b) (Word.flags_of word)) result }
{
    worked::<O>(c, w, a, b, carries::<O>(c, w, a, b), word)
}
