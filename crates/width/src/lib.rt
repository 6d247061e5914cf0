//! Numbers at an operand size: 8, 16 or 32 bits. Values are `u32`, sums and products on the way `u64`.
#![tactic(auto)]

ghost use Rattle.std.specs.Prelude.{◌≡◌, ◌<◌, pos};
ghost use Rattle.std.proofs.Math.IntN.{sub_ℕ};
ghost use Rattle.width.specs.Sizes.{bits, bytes, modulus, half};
ghost use Rattle.width.specs.Numbers.{
  Is,
  bit_at,
  rest,
  beyond,
  outside,
  negative,
  Ranked,
  sign_extended,
  sign_filled,
  reversed,
};

/// The operand sizes of the instruction set.
#[derive(Clone, Copy, Debug, PartialEq, Eq)]
pub enum Size {
    Byte,
    Word,
    Dword,
}

impl Size {
    /// How many bits a number of the size has.
    #[inline(always)]
    #[tactic(auto, unfolding(crate::specs::Sizes::bits))]
    pub fn bits(self) -> u32
        ensures { result ≡ bits self }
    {
        match self {
            Size::Byte => 8,
            Size::Word => 16,
            Size::Dword => 32,
        }
    }

    /// How many bytes.
    // By size, as `bits`: `self.bits() / 8` would need a cast and be no plainer.
    #[inline(always)]
    #[tactic(auto, unfolding(crate::specs::Sizes::bytes))]
    pub fn bytes(self) -> usize
        ensures { result ≡ bytes self }
    {
        match self {
            Size::Byte => 1,
            Size::Word => 2,
            Size::Dword => 4,
        }
    }

    /// How many numbers the size has.
    #[inline(always)]
    #[tactic(auto, unfolding(crate::specs::Sizes::bits, crate::specs::Sizes::modulus))]
    pub fn modulus(self) -> u64
        ensures { result ≡ modulus self }
    {
        1 << self.bits()
    }

    /// The least number of the size whose sign bit is set.
    #[inline(always)]
    #[tactic(auto, unfolding(crate::specs::Sizes::bits, crate::specs::Sizes::half))]
    pub fn half(self) -> u32
        ensures { result ≡ half self }
    {
        1 << (self.bits() - 1)
    }

    /// A number's rest at the size.
    #[inline(always)]
    #[tactic(auto, unfolding(crate::specs::Sizes::bits, crate::specs::Sizes::modulus, crate::specs::Numbers::residue, crate::specs::Numbers::rest))]
    pub fn low(self, n: u64) -> u32
        ensures { Is self (rest self (pos n)) result }
    {
        // By size, which is faster: `n % self.modulus()` makes a step of a register loop 3 % longer.
        match self {
            Size::Byte => (n % 0x100) as u32,
            Size::Word => (n % 0x1_0000) as u32,
            Size::Dword => (n % 0x1_0000_0000) as u32,
        }
    }

    /// Is p - q no signed number of the size?
    pub fn outside(self, p: u64, q: u64) -> bool
        ensures { result ≡ outside self (sub_ℕ p q) }
    {
        let h = u64::from(self.half());
        if p < q { h < q - p } else { h <= p - q }
    }

    /// The sign bit.
    #[inline(always)]
    #[tactic(auto, unfolding(crate::specs::Numbers::negative))]
    pub fn negative(self, v: u32) -> bool
        ensures { result ≡ negative self v }
    {
        self.half() <= v
    }

    /// How far a number's signed meaning lies above the lowest signed number of the size.
    #[inline(always)]
    pub fn rank(self, v: u32) -> u64
        ensures { Ranked self v result }
    {
        let h = self.half();
        if v < h {
            u64::from(v) + u64::from(h)
        } else {
            u64::from(v - h)
        }
    }

    /// A number of this size, extended by sign to another.
    pub fn sign_extended(self, to: Size, v: u32) -> u32
        ensures { Is to (sign_extended self to v) result }
    {
        to.low(self.rank(v) + 0x2_0000_0000 - u64::from(self.half()))
    }

    /// A number of the size with each bit the sign bit of v.
    pub fn sign_filled(self, v: u32) -> u32
        ensures { Is self (sign_filled self v) result }
    {
        if self.negative(v) {
            self.low(0xFFFF_FFFF)
        } else {
            0
        }
    }
}

/// Is bit k of n set? None is from 64 on.
#[inline(always)]
#[tactic(auto, unfolding(crate::specs::Numbers::bit_at))]
pub fn bit_at(k: u32, n: u64) -> bool
    ensures { result ≡ bit_at k n }
{
    k < 64 && (n >> k) % 2 == 1
}

/// Is p - q none of the numbers below m?
#[inline(always)]
pub fn beyond(m: u64, p: u64, q: u64) -> bool
    ensures { result ≡ beyond m (sub_ℕ p q) }
{
    p < q || m <= p - q
}

/// The four bytes in the opposite order.
#[tactic(auto, unfolding(crate::specs::Numbers::reversed))]
pub fn reversed(v: u32) -> u32
    ensures { result ≡ reversed v }
{
    v.swap_bytes()
}
