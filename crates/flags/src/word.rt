//! The flags as one word.
ghost use Rattle.std.specs.Prelude.{◌≡◌};
ghost use Rattle.flags.specs.Word.{flags_of};

use crate::Flags;
use std::marker::Model;

/// The flags as one word; in clauses they are `Flags`. Its bits are those that `pack` gives.
#[derive(Clone, Copy, Debug, PartialEq, Eq)]
pub struct Word {
    bits: u32,
}

impl Model for Word {
    ghost use Rattle.flags.specs.declared.Flags as F;

    ghost Value = { F.Flags };

    ghost use Rattle.std.specs.Prelude.{◌≡◌};
    ghost use Rattle.flags.specs.Word as W;

    ghost view = { λ w. W.flags_of w.bits };

    ghost invariant = { λ w. W.word_of (W.flags_of w.bits) ≡ w.bits };

    ghost inverse = { λ f. record { bits = W.word_of f } };

    ghost inverse_ok = { λ w own i. record { bits = own i } };
}

impl Word {
    /// The flags of a word.
    #[inline(always)]
    pub fn of_bits(bits: u32) -> Word
        ensures { result ≡ flags_of bits }
    {
        Word::pack(crate::unpack(bits))
    }

    /// A word of the flags.
    #[inline(always)]
    pub fn bits(&self) -> u32
        ensures { flags_of result ≡ self.now }
    {
        self.bits
    }

    /// The word of some flags.
    // By this name and not `From`, as `flags::pack` and `unpack` are.
    #[inline(always)]
    #[tactic(auto, using(crate::proofs::RoundTrips::unpacked))]
    pub fn pack(f: Flags) -> Word
        ensures { result ≡ f }
    {
        Word {
            bits: crate::pack(f),
        }
    }

    /// The flags that it means.
    // By name, as `pack`.
    #[inline(always)]
    pub fn unpack(&self) -> Flags
        ensures { result ≡ self.now }
    {
        crate::unpack(self.bits)
    }
}
