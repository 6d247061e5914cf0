//! The machine: eight 32-bit registers, eight XMM registers, EIP and the flags, changed in place.
ghost use Rattle.std.specs.Prelude.{◌≡◌};
ghost use Rattle.width.specs.Sizes.{bits};
ghost use Rattle.machine.specs.Registers.{
  register,
  with_register,
  with_eip,
  with_flags,
  with_xmm,
  single,
  with_single,
  holder,
  lowest,
  part,
  replaced,
  with_part,
};
ghost use Rattle.machine.specs.Lending.{xmm_of};

use flags::Word;
use scalar::Xmm;
use width::Size;

// Registers stay numbers, as the manual encodes them: among the bytes 0 to 7 are AL CL DL BL AH CH DH BH, so an enum would need a second one by size.

pub const EAX: u32 = 0;

pub const ECX: u32 = 1;

pub const EDX: u32 = 2;

pub const EBX: u32 = 3;

pub const ESP: u32 = 4;

pub const EBP: u32 = 5;

pub const ESI: u32 = 6;

pub const EDI: u32 = 7;

pub const AH: u32 = 4;

/// The machine. In clauses its flags are `Flags`.
#[derive(Clone, Copy)]
pub struct Machine {
    pub regs: [u32; 8],
    pub xmm: [Xmm; 8],
    pub eip: u32,
    pub flags: Word,
}

/// XMM registers by their bits.
// Element by element, here and in `xmm_of`: what `map` ensures leaves the clauses open.
pub fn bits_of(xmm: [Xmm; 8]) -> [u32; 8]
    ensures { xmm_of result ≡ xmm }
{
    [
        xmm[0].bits,
        xmm[1].bits,
        xmm[2].bits,
        xmm[3].bits,
        xmm[4].bits,
        xmm[5].bits,
        xmm[6].bits,
        xmm[7].bits,
    ]
}

/// The XMM registers of their bits.
pub fn xmm_of(bits: [u32; 8]) -> [Xmm; 8]
    ensures { result ≡ xmm_of bits }
{
    [
        Xmm { bits: bits[0] },
        Xmm { bits: bits[1] },
        Xmm { bits: bits[2] },
        Xmm { bits: bits[3] },
        Xmm { bits: bits[4] },
        Xmm { bits: bits[5] },
        Xmm { bits: bits[6] },
        Xmm { bits: bits[7] },
    ]
}

/// The number of the register that a part lies in: AL CL DL BL AH CH DH BH lie in the first four.
#[inline(always)]
#[tactic(auto, unfolding(crate::specs::Registers::holder))]
fn holder(w: Size, i: u32) -> u32
    ensures { result ≡ holder w i }
{
    match w {
        Size::Byte => i % 4,
        Size::Word | Size::Dword => i,
    }
}

/// A register's value v with the part i at the size replaced by x.
#[inline(always)]
#[tactic(auto, using(crate::proofs::Parts::low_byte, crate::proofs::Parts::high_byte, crate::proofs::Parts::low_word, crate::proofs::Parts::whole), unfolding(crate::specs::Registers::lowest, width::specs::Sizes::bits))]
fn replaced(w: Size, i: u32, v: u32, x: u32) -> u32
    ensures { result ≡ replaced (lowest w i) (bits w) v x }
{
    // By size, as the manual draws the registers: a formula over the lowest bit and the width would be no plainer.
    match w {
        Size::Byte => {
            if i / 4 % 2 == 0 {
                v - v % 0x100 + x % 0x100
            } else {
                v - v % 0x1_0000 + x % 0x100 * 0x100 + v % 0x100
            }
        }
        Size::Word => v - v % 0x1_0000 + x % 0x1_0000,
        Size::Dword => x,
    }
}

impl Machine {
    /// A whole register.
    #[inline(always)]
    #[tactic(auto, unfolding(crate::specs::Registers::register))]
    pub fn register(&self, i: u32) -> u32
        ensures { result ≡ register self.now i }
    {
        self.regs[(i % 8) as usize]
    }

    /// Another value in a register.
    #[inline(always)]
    #[tactic(auto, unfolding(crate::specs::Registers::with_register))]
    pub fn set_register(&mut self, i: u32, v: u32)
        ensures { self.new ≡ with_register self.old i v }
    {
        self.regs[(i % 8) as usize] = v;
    }

    /// Another place.
    #[inline(always)]
    #[tactic(auto, unfolding(crate::specs::Registers::with_eip))]
    pub fn set_eip(&mut self, eip: u32)
        ensures { self.new ≡ with_eip self.old eip }
    {
        self.eip = eip;
    }

    /// The flags, lent.
    #[inline(always)]
    pub fn flags(&self) -> &Word
        ensures { result.now ≡ self.now.flags }
    {
        &self.flags
    }

    /// Other flags.
    #[inline(always)]
    #[tactic(auto, unfolding(crate::specs::Registers::with_flags))]
    pub fn set_flags(&mut self, flags: Word)
        ensures { self.new ≡ with_flags self.old flags }
    {
        self.flags = flags;
    }

    /// Other XMM registers.
    #[inline(always)]
    #[tactic(auto, unfolding(crate::specs::Registers::with_xmm))]
    pub fn set_xmm(&mut self, xmm: [Xmm; 8])
        ensures { self.new ≡ with_xmm self.old xmm }
    {
        self.xmm = xmm;
    }

    /// The bits of the single in an XMM register.
    #[inline(always)]
    #[tactic(auto, unfolding(crate::specs::Registers::single, crate::specs::Registers::bits_in))]
    pub fn single(&self, i: u32) -> u32
        ensures { result ≡ single self.now i }
    {
        self.xmm[(i % 8) as usize].bits
    }

    /// Other bits put into an XMM register.
    #[inline(always)]
    #[tactic(auto, unfolding(crate::specs::Registers::with_single, crate::specs::Registers::with_xmm, crate::specs::Registers::with_bits))]
    pub fn set_single(&mut self, i: u32, bits: u32)
        ensures { self.new ≡ with_single self.old i bits }
    {
        self.xmm[(i % 8) as usize] = Xmm { bits };
    }

    /// The part of a register with the number i at the size.
    #[inline(always)]
    #[tactic(auto, unfolding(crate::specs::Registers::part, crate::specs::Registers::holder, crate::specs::Registers::lowest, crate::specs::Registers::bits_from, width::specs::Sizes::bits))]
    pub fn part(&self, w: Size, i: u32) -> u32
        ensures { result ≡ part self.now w i }
    {
        // By size, as in `replaced`.
        match w {
            Size::Byte => {
                let v = self.register(i % 4);
                if i / 4 % 2 == 0 {
                    v % 0x100
                } else {
                    v / 0x100 % 0x100
                }
            }
            Size::Word => self.register(i) % 0x1_0000,
            Size::Dword => self.register(i),
        }
    }

    /// x assigned to the part i of a register at the size.
    #[inline(always)]
    #[tactic(auto, unfolding(crate::specs::Registers::with_part))]
    pub fn set_part(&mut self, w: Size, i: u32, x: u32)
        ensures { self.new ≡ with_part self.old w i x }
    {
        let h = holder(w, i);
        let v = self.register(h);
        self.set_register(h, replaced(w, i, v, x));
    }

    /// The machine with another value in a register.
    pub fn with_register(mut self, i: u32, v: u32) -> Machine
        ensures { result ≡ with_register self i v }
    {
        self.set_register(i, v);
        self
    }

    /// The machine at another place.
    pub fn with_eip(mut self, eip: u32) -> Machine
        ensures { result ≡ with_eip self eip }
    {
        self.set_eip(eip);
        self
    }

    /// The machine with other flags.
    pub fn with_flags(mut self, flags: Word) -> Machine
        ensures { result ≡ with_flags self flags }
    {
        self.set_flags(flags);
        self
    }

    /// The machine with other XMM registers.
    pub fn with_xmm(mut self, xmm: [Xmm; 8]) -> Machine
        ensures { result ≡ with_xmm self xmm }
    {
        self.set_xmm(xmm);
        self
    }
}
