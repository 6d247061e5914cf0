//! Products with both halves, and division of a dividend of twice the size, with their flags.
#![tactic(auto)]

ghost use Rattle.std.specs.Prelude.{◌≡◌, ◌+◌, ◌*◌, ◌/◌, ◌^◌, ◌<◌, pos, int_div, int_rem};
ghost use Rattle.width.specs.Sizes.{modulus, half};
ghost use Rattle.width.specs.Numbers.{Is, residue, rest, meaning, signed, outside};
ghost use Rattle.product.specs.Magnitude.{integer, Represents, Twice};
ghost use Rattle.product.specs.Multiply.{
  Halves,
  unsigned_product,
  signed_product,
  unsigned_spills,
  signed_spills,
  product_flags,
};
ghost use Rattle.product.specs.Divide.{
  Divides,
  joined,
  divided_unsigned,
  divided_signed,
  unsigned_division,
  signed_division,
};

use flags::Flags;
use width::Size;

/// A product's two halves.
#[derive(Clone, Copy, Debug, PartialEq, Eq)]
pub struct Product {
    pub low: u32,
    pub high: u32,
}

/// What a division gives.
#[derive(Clone, Copy, Debug, PartialEq, Eq)]
pub struct Parts {
    pub quotient: u32,
    pub remainder: u32,
}

/// A signed number by its sign and its magnitude: it lies between -2^63 and 2^64, which no `i64` holds.
#[derive(Clone, Copy, Debug, PartialEq, Eq)]
struct Signed {
    negative: bool,
    magnitude: u64,
}

/// A number, taken at the size.
#[inline(always)]
fn taken(w: Size, v: u32) -> u64
    ensures { Is w (rest w (pos v)) result }
{
    u64::from(w.low(u64::from(v)))
}

/// What v means as a signed number, where h is the least number whose sign bit is set.
fn meaning(h: u64, v: u64) -> Signed
    requires { v < h + h }
    ensures { Represents (meaning h v) h result }
{
    if v < h {
        Signed {
            negative: false,
            magnitude: v,
        }
    } else {
        Signed {
            negative: true,
            magnitude: h - (v - h),
        }
    }
}

impl Signed {
    /// A signed number's rest modulo 2 ^ 64.
    fn complement(self) -> u64
        ensures { result ≡ residue (2 ^ 64) (integer self) }
    {
        if self.negative {
            0u64.wrapping_sub(self.magnitude)
        } else {
            self.magnitude
        }
    }

    /// A signed number's rest at the size.
    fn rest(self, w: Size) -> u32
        ensures { Is w (rest w (integer self)) result }
    {
        w.low(self.complement())
    }

    /// Is it no signed number of the size?
    fn outside(self, w: Size) -> bool
        ensures { result ≡ outside w (integer self) }
    {
        if self.negative {
            w.outside(0, self.magnitude)
        } else {
            w.outside(self.magnitude, 0)
        }
    }

    /// The quotient, truncated toward zero.
    fn quotient(self, d: Signed) -> Signed
        requires { 0 < d.magnitude }
        ensures { integer result ≡ int_div (integer self) (integer d) }
    {
        Signed {
            negative: self.negative != d.negative,
            magnitude: self.magnitude / d.magnitude,
        }
    }

    /// The remainder, with the dividend's sign.
    fn remainder(self, d: Signed) -> Signed
        requires { 0 < d.magnitude }
        ensures { integer result ≡ int_rem (integer self) (integer d) }
    {
        Signed {
            negative: self.negative,
            magnitude: self.magnitude % d.magnitude,
        }
    }
}

/// An operand, taken at the size, as a signed number.
fn operand(w: Size, v: u32) -> Signed
    ensures { Represents (signed w (rest w (pos v))) (half w) result }
{
    meaning(u64::from(w.half()), taken(w, v))
}

/// What stands above the low half, at the size.
fn upper(w: Size, n: u64) -> u32
    ensures { Is w (rest w (pos (n / modulus w))) result }
{
    w.low(n / w.modulus())
}

/// A number's two halves.
fn halves(w: Size, n: u64) -> Product
    ensures { Halves w (pos n) result }
{
    Product {
        low: w.low(n),
        high: upper(w, n),
    }
}

// MUL and IMUL, DIV and IDIV stay apart: unsigned and signed numbers share no step but `halves`, `taken` and `joined`.
/// MUL: the unsigned product's two halves.
pub fn mul(w: Size, a: u32, b: u32) -> Product
    ensures { Halves w (unsigned_product w a b) result }
{
    halves(w, taken(w, a) * taken(w, b))
}

/// Does MUL set CF and OF?
pub fn mul_spills(w: Size, a: u32, b: u32) -> bool
    ensures { result ≡ unsigned_spills w a b }
{
    mul(w, a, b).high != 0
}

/// The signed product of two operands.
fn signed_product(w: Size, a: u32, b: u32) -> Signed
    ensures { integer result ≡ signed_product w a b }
{
    let x = operand(w, a);
    let y = operand(w, b);
    Signed {
        negative: x.negative != y.negative,
        magnitude: x.magnitude * y.magnitude,
    }
}

/// IMUL: the signed product's two halves; the low one alone is the result of the forms with two and three operands.
pub fn imul(w: Size, a: u32, b: u32) -> Product
    ensures { Halves w (signed_product w a b) result }
{
    halves(w, signed_product(w, a, b).complement())
}

/// Does IMUL set CF and OF?
pub fn imul_spills(w: Size, a: u32, b: u32) -> bool
    ensures { result ≡ signed_spills w a b }
{
    signed_product(w, a, b).outside(w)
}

/// The flags after a product.
pub fn product_flags(spills: bool, old: Flags) -> Flags
    ensures { result ≡ product_flags spills old }
{
    Flags {
        cf: spills,
        of: spills,
        ..flags::all_undefined(old)
    }
}

/// A dividend's two halves, taken at the size, joined.
fn joined(w: Size, high: u32, low: u32) -> u64
    ensures { Twice w (joined w high low) result }
{
    taken(w, high) * w.modulus() + taken(w, low)
}

/// The same as a signed number.
fn dividend(w: Size, high: u32, low: u32) -> Signed
    ensures { Represents (meaning (half w * modulus w) (joined w high low)) (half w * modulus w) result }
{
    meaning(u64::from(w.half()) * w.modulus(), joined(w, high, low))
}

/// DIV of a number by another.
fn divided_unsigned(w: Size, n: u64, d: u64) -> Option<Parts>
    ensures { Divides w (divided_unsigned w n d) result }
{
    if d == 0 || w.modulus() <= n / d {
        return None;
    }
    Some(Parts {
        quotient: w.low(n / d),
        remainder: w.low(n % d),
    })
}

/// DIV of high:low by d.
pub fn div(w: Size, high: u32, low: u32, d: u32) -> Option<Parts>
    ensures { Divides w (unsigned_division w high low d) result }
{
    divided_unsigned(w, joined(w, high, low), taken(w, d))
}

/// IDIV of a signed number by another.
fn divided_signed(w: Size, n: Signed, d: Signed) -> Option<Parts>
    ensures { Divides w (divided_signed w (integer n) (integer d)) result }
{
    if d.magnitude == 0 {
        return None;
    }
    let q = n.quotient(d);
    if q.outside(w) {
        return None;
    }
    Some(Parts {
        quotient: q.rest(w),
        remainder: n.remainder(d).rest(w),
    })
}

/// IDIV of high:low by d.
pub fn idiv(w: Size, high: u32, low: u32, d: u32) -> Option<Parts>
    ensures { Divides w (signed_division w high low d) result }
{
    divided_signed(w, dividend(w, high, low), operand(w, d))
}
