//! Double shifts at a size, by any count: the value, and the flags.
ghost use Rattle.std.specs.Prelude.{◌≡◌, ◌+◌, ◌*◌, ◌<◌, ◌≤◌};
ghost use Rattle.width.specs.Sizes.{bits, modulus};
ghost use Rattle.width.specs.Numbers.{Is};
ghost use Rattle.bits.specs.Doubles.{
  double_moved,
  last_out,
  overflow_after,
  flags_after,
  double_value,
  double_flags,
};

use crate::DoubleShift;
use flags::Flags;
use width::{Size, bit_at};

/// Two numbers of the size as one double number.
fn double(w: Size, high: u32, low: u32) -> u64
    requires { low < modulus w }
    ensures { result ≡ high * modulus w + low }
{
    (u64::from(high) << w.bits()) + u64::from(low)
}

/// The operands of a double shift: d and s, both of the size, and a count of 0 to the width.
#[derive(Clone, Copy)]
struct Operands {
    size: Size,
    d: u32,
    s: u32,
    count: u32,
    ghost d_below: { d < modulus size },
    ghost s_below: { s < modulus size },
    ghost within: { count ≤ bits size },
}

impl Operands {
    /// d and s as one double number, moved by the count: to the left by it is to the right by the rest of the width.
    fn double_moved(self, op: DoubleShift) -> u32
        ensures { Is self.size (double_moved op self.size self.d self.s self.count) result }
    {
        let w = self.size;
        match op {
            DoubleShift::Shld => w.low(double(w, self.d, self.s) >> (w.bits() - self.count)),
            DoubleShift::Shrd => w.low(double(w, self.s, self.d) >> self.count),
        }
    }

    // That the count is not 0 is a clause here and in `flags_after`, and no field: `double_moved` takes 0 too.
    /// The last bit that left d.
    fn last_out(self, op: DoubleShift) -> bool
        requires { 0 < self.count }
        ensures { result ≡ last_out op self.size self.d self.count }
    {
        match op {
            DoubleShift::Shld => bit_at(self.size.bits() - self.count, u64::from(self.d)),
            DoubleShift::Shrd => bit_at(self.count - 1, u64::from(self.d)),
        }
    }

    /// OF afterwards; r is the result.
    fn overflow_after(self, r: u32, old: bool) -> bool
        ensures { result ≡ overflow_after self.size self.d r self.count old }
    {
        if self.count == 1 {
            self.size.negative(self.d) != self.size.negative(r)
        } else {
            flags::undefined(old)
        }
    }

    /// The flags after a count that is not 0.
    fn flags_after(self, op: DoubleShift, old: Flags) -> Flags
        requires { 0 < self.count }
        ensures { result ≡ flags_after op self.size self.d self.s self.count old }
    {
        let r = self.double_moved(op);
        let c = self.last_out(op);
        let a = flags::undefined(old.af);
        flags::resulting(self.size, r, c, a, self.overflow_after(r, old.of), old)
    }
}

/// The value of d shifted with s behind it, by any count.
pub fn double_value(op: DoubleShift, w: Size, d: u32, s: u32, count: u32) -> u32
    ensures { Is w (double_value op w d s count) result }
{
    let k = count % 32;
    let own = w.low(u64::from(d));
    if k <= w.bits() {
        let operands = Operands {
            size: w,
            d: own,
            s: w.low(u64::from(s)),
            count: k,
        };
        operands.double_moved(op)
    } else {
        own
    }
}

/// The flags after d was shifted with s behind it, by any count.
pub fn double_flags(op: DoubleShift, w: Size, d: u32, s: u32, count: u32, old: Flags) -> Flags
    ensures { result ≡ double_flags op w d s count old }
{
    let k = count % 32;
    if k == 0 {
        return old;
    }
    if k <= w.bits() {
        let operands = Operands {
            size: w,
            d: w.low(u64::from(d)),
            s: w.low(u64::from(s)),
            count: k,
        };
        operands.flags_after(op, old)
    } else {
        flags::all_undefined(old)
    }
}
