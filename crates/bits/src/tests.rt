//! Bit tests: the value, the flags, and where in memory the unit is that holds a bit.
ghost use Rattle.std.specs.Prelude.{◌≡◌, ◌<◌};
ghost use Rattle.bits.specs.Tests.{with_bit, bit_after, test_value, test_flags, unit_address};
ghost use Rattle.bits.specs.Parts.{Below, Units};

use crate::BitTest;
use flags::Flags;
use width::{Size, bit_at};

/// A number with its bit k as given: the old bit out, the new one in.
fn with_bit(k: u32, v: u32, b: bool) -> u32
    requires { k < 32 }
    ensures { result ≡ with_bit k v b }
{
    let out = u64::from(bit_at(k, u64::from(v)));
    let into = u64::from(b);
    (u64::from(v) + (into << k) - (out << k)) as u32
}

/// The selected bit afterwards.
fn bit_after(op: BitTest, b: bool) -> bool
    ensures { result ≡ bit_after op b }
{
    match op {
        BitTest::Bt => b,
        BitTest::Bts => true,
        BitTest::Btr => false,
        BitTest::Btc => !b,
    }
}

/// The value of a bit test of v.
pub fn test_value(op: BitTest, w: Size, v: u32, offset: u32) -> u32
    ensures { result ≡ test_value op w v offset }
{
    let k = shift::of_bits(w, offset);
    with_bit(k, v, bit_after(op, bit_at(k, u64::from(v))))
}

/// The flags after a bit test of v.
pub fn test_flags(w: Size, v: u32, offset: u32, old: Flags) -> Flags
    ensures { result ≡ test_flags w v offset old }
{
    Flags {
        cf: bit_at(shift::of_bits(w, offset), u64::from(v)),
        ..flags::all_undefined(old)
    }
}

/// How far a number's signed meaning lies below it: nothing, or all the numbers of the size.
fn below(w: Size, v: u32) -> u64
    ensures { Below w v result }
{
    if w.negative(v) { w.modulus() } else { 0 }
}

/// How many bytes the units take that so many bits fill.
fn units(w: Size, n: u64) -> u64
    ensures { Units w n result }
{
    // A cast, since u64 has no From<usize>.
    n / u64::from(w.bits()) * w.bytes() as u64
}

/// Where the unit is that holds the bit of a signed offset from address a.
pub fn unit_address(w: Size, a: u32, offset: u32) -> u32
    ensures { result ≡ unit_address w a offset }
{
    let back = units(w, below(w, offset));
    let on = units(w, u64::from(offset));
    // In 64 bits, since the clause is over the integers.
    Size::Dword.low(u64::from(a) + on + 0x2_0000_0000 - back)
}
