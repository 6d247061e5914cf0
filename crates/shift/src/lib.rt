//! Shifts and rotates at a size, by any count: the value, and the flags.
#![tactic(auto)]

ghost use Rattle.std.specs.Prelude.{◌≡◌, ◌+◌, ◌*◌, ◌/◌, ◌^◌, ◌<◌, ◌≤◌, pos};
ghost use Rattle.std.specs.Int.Signed.{shr_z};
ghost use Rattle.width.specs.Sizes.{bits, modulus};
ghost use Rattle.width.specs.Numbers.{Is, bit_at, rest, signed};
ghost use Rattle.shift.specs.Values.{Part, turned_right, with_carry, through_left, through_right, shifted, shift_value};
ghost use Rattle.shift.specs.Changes.{
  unless_all_out,
  carry_after,
  overflow_once,
  rotate_flags,
  changed,
  flags_after,
  shift_flags,
};
ghost use Rattle.shift.specs.Parts.{Turned, Carried};

use flags::Flags;
use width::{Size, bit_at};

/// The instructions, in the order of their reg fields /0 to /5 and /7.
#[derive(Clone, Copy, Debug, PartialEq, Eq)]
pub enum Shift {
    Rol,
    Ror,
    Rcl,
    Rcr,
    Shl,
    Shr,
    Sar,
}

/// A count modulo the size's bits, by which ROL and ROR turn, and which selects a bit.
pub fn of_bits(w: Size, k: u32) -> u32
    ensures { Part (bits w) k result }
{
    k % w.bits()
}

/// The count modulo one more than the size's bits, by which RCL and RCR turn.
// By size, as the manual gives it: each is a rest by a constant, where a formula over the bits would divide.
fn of_bits_and_carry(w: Size, k: u32) -> u32
    ensures { Part (bits w + 1) k result }
{
    match w {
        Size::Byte => k % 9,
        Size::Word => k % 17,
        Size::Dword => k % 33,
    }
}

/// A number of b bits, turned right by k: its low k bits go to the top.
fn turned_right(b: u32, k: u32, x: u64) -> u64
    requires b_bound { b ≤ 33 }
    requires k_le_b { k ≤ b }
    requires x_bound { x < 2 ^ b }
    ensures { Turned b k x result }
{
    let high = x >> k;
    ((x - (high << k)) << (b - k)) + high
}

/// CF after SHL or SHR: the last bit out, undefined by the width or more.
fn unless_all_out(w: Size, k: u32, out: bool, old: bool) -> bool
    ensures { result ≡ unless_all_out w k out old }
{
    if k < w.bits() {
        out
    } else {
        flags::undefined(old)
    }
}

/// CF and OF changed, all else kept.
#[tactic(auto, unfolding(crate::specs::Changes::rotate_flags))]
fn rotate_flags(c: bool, o: bool, old: Flags) -> Flags
    ensures { result ≡ rotate_flags c o old }
{
    Flags {
        cf: c,
        of: o,
        ..old
    }
}

/// The flags by the result r, with CF and OF after; a rotate changes these two alone.
#[tactic(auto, unfolding(crate::specs::Changes::changed))]
fn changed(op: Shift, w: Size, r: u32, c: bool, o: bool, old: Flags) -> Flags
    ensures { result ≡ changed op w r c o old }
{
    let a = flags::undefined(old.af);
    match op {
        Shift::Rol | Shift::Ror | Shift::Rcl | Shift::Rcr => rotate_flags(c, o, old),
        Shift::Shl | Shift::Shr | Shift::Sar => flags::resulting(w, r, c, a, o, old),
    }
}

/// A number of a size.
#[derive(Clone, Copy)]
struct Number {
    size: Size,
    value: u32,
    ghost below: { value < modulus size },
}

impl Number {
    /// The number of the size that has the lowest bits of v.
    fn new(size: Size, v: u32) -> Self
        ensures same_size { result.size ≡ size }
        ensures lowest { result.value ≡ rest size (pos v) }
    {
        Number {
            size,
            value: size.low(u64::from(v)),
        }
    }

    /// The number, turned right by k.
    fn rotated(self, k: u32) -> u32
        requires { k ≤ bits self.size }
        ensures { Is self.size (turned_right (bits self.size) k self.value) result }
    {
        turned_right(self.size.bits(), k, u64::from(self.value)) as u32
    }

    /// The number with CF above its top bit, as RCL and RCR turn it.
    fn with_carry(self, c: bool) -> u64
        ensures { Carried self.size c self.value result }
    {
        if c {
            self.size.modulus() + u64::from(self.value)
        } else {
            u64::from(self.value)
        }
    }

    /// CF and the number, turned right by k.
    fn through(self, k: u32, c: bool) -> u64
        requires { k ≤ bits self.size + 1 }
        ensures { result ≡ turned_right (bits self.size + 1) k (with_carry self.size c self.value) }
    {
        turned_right(self.size.bits() + 1, k, self.with_carry(c))
    }

    /// CF and the number, as RCL turns them.
    fn through_left(self, k: u32, c: bool) -> u64
        ensures { result ≡ through_left self.size self.value k c }
    {
        self.through(self.size.bits() + 1 - of_bits_and_carry(self.size, k), c)
    }

    /// CF and the number, as RCR turns them.
    fn through_right(self, k: u32, c: bool) -> u64
        ensures { result ≡ through_right self.size self.value k c }
    {
        self.through(of_bits_and_carry(self.size, k), c)
    }

    // That k is below 32 stays a clause, in six functions: with the count in the struct a step of a shift takes 4 to 10 % more instructions.
    /// SHL: bits that pass the top are lost.
    fn shifted_left(self, k: u32) -> u32
        requires { k < 32 }
        ensures { Is self.size (rest self.size (pos (self.value * 2 ^ k))) result }
    {
        self.size.low(u64::from(self.value) << k)
    }

    /// SHR: zeros come in at the top.
    fn shifted_right(self, k: u32) -> u32
        requires { k < 32 }
        ensures { Is self.size (self.value / 2 ^ k) result }
    {
        self.value >> k
    }

    /// SAR: the sign bit is copied, so of a negative number the complement is shifted.
    fn shifted_right_signed(self, k: u32) -> u32
        requires { k < 32 }
        ensures { Is self.size (rest self.size (shr_z (signed self.size self.value) (2 ^ k))) result }
    {
        if self.size.negative(self.value) {
            let ones = (self.size.modulus() - 1) as u32;
            ones - ((ones - self.value) >> k)
        } else {
            self.value >> k
        }
    }

    /// The number, shifted or rotated by k; c is CF.
    fn shifted(self, op: Shift, k: u32, c: bool) -> u32
        requires { k < 32 }
        ensures { Is self.size (shifted op self.size self.value k c) result }
    {
        match op {
            Shift::Rol => self.rotated(self.size.bits() - of_bits(self.size, k)),
            Shift::Ror => self.rotated(of_bits(self.size, k)),
            Shift::Rcl => self.size.low(self.through_left(k, c)),
            Shift::Rcr => self.size.low(self.through_right(k, c)),
            Shift::Shl => self.shifted_left(k),
            Shift::Shr => self.shifted_right(k),
            Shift::Sar => self.shifted_right_signed(k),
        }
    }

    // And that it is not 0, here and in `flags_after`, since `shifted` takes 0 too.
    /// CF after a count that is not 0; r is the result, c CF before.
    fn carry_after(self, op: Shift, k: u32, c: bool, r: u32) -> bool
        requires k_nonzero { 0 < k }
        requires k_bound { k < 32 }
        requires r_value { r ≡ shifted op self.size self.value k c }
        ensures { result ≡ carry_after op self.size self.value k c }
    {
        let w = self.size;
        match op {
            Shift::Rol => bit_at(0, u64::from(r)),
            Shift::Ror => w.negative(r),
            Shift::Rcl => bit_at(w.bits(), self.through_left(k, c)),
            Shift::Rcr => bit_at(w.bits(), self.through_right(k, c)),
            Shift::Shl => unless_all_out(w, k, w.negative(self.shifted_left(k - 1)), c),
            Shift::Shr => unless_all_out(w, k, bit_at(0, u64::from(self.shifted_right(k - 1))), c),
            Shift::Sar => bit_at(0, u64::from(self.shifted_right_signed(k - 1))),
        }
    }

    /// OF after count 1; r is the result, c CF after.
    fn overflow_once(self, op: Shift, r: u32, c: bool) -> bool
        ensures { result ≡ overflow_once op self.size self.value r c }
    {
        let w = self.size;
        let top = w.negative(r);
        let second = bit_at(w.bits() - 2, u64::from(r));
        match op {
            Shift::Rol => top != c,
            Shift::Ror => top != second,
            Shift::Rcl => top != c,
            Shift::Rcr => top != second,
            Shift::Shl => top != c,
            Shift::Shr => w.negative(self.value),
            Shift::Sar => false,
        }
    }

    /// The flags after a count of 1 to 31.
    fn flags_after(self, op: Shift, k: u32, old: Flags) -> Flags
        requires k_nonzero { 0 < k }
        requires k_bound { k < 32 }
        ensures { result ≡ flags_after op self.size self.value k old }
    {
        let r = self.shifted(op, k, old.cf);
        let c = self.carry_after(op, k, old.cf, r);
        if k == 1 {
            changed(op, self.size, r, c, self.overflow_once(op, r, c), old)
        } else {
            changed(op, self.size, r, c, flags::undefined(old.of), old)
        }
    }
}

/// The value of a shift or rotate of v by any count; c is CF.
pub fn shift_value(op: Shift, w: Size, v: u32, count: u32, c: bool) -> u32
    ensures { Is w (shift_value op w v count c) result }
{
    Number::new(w, v).shifted(op, count % 32, c)
}

/// The flags after a shift or rotate of v by any count.
pub fn shift_flags(op: Shift, w: Size, v: u32, count: u32, old: Flags) -> Flags
    ensures { result ≡ shift_flags op w v count old }
{
    let k = count % 32;
    if k == 0 {
        old
    } else {
        Number::new(w, v).flags_after(op, k, old)
    }
}
