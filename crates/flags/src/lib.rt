//! The seven flags as a value, the flags word that they are packed in, the conditions on them, and the policy for an undefined flag.
#![tactic(auto)]

mod word;

ghost use Rattle.std.specs.Prelude.{◌≡◌, ◌*◌, ◌<◌};
ghost use Rattle.flags.specs.Word as W;
ghost use Rattle.flags.specs.Word.{AhWord, flags_of, passes, from_ah};
ghost use Rattle.flags.specs.Conditions.{meets};
ghost use Rattle.flags.specs.Results.{undefined_flag, all_undefined, parity, resulting};

use width::{Size, bit_at};
pub use word::Word;

/// The status flags and the direction flag.
#[derive(Clone, Copy, Debug, PartialEq, Eq)]
pub struct Flags {
    pub cf: bool,
    pub pf: bool,
    pub af: bool,
    pub zf: bool,
    pub sf: bool,
    pub df: bool,
    pub of: bool,
}

/// The flags word of the flags.
// Beside `Word`, which has the same flags and says nothing of the other bits: what is handed out is this very word.
pub fn pack(f: Flags) -> u32
    ensures { W.Word f result }
{
    2 + u32::from(f.cf)
        + 4 * u32::from(f.pf)
        + 16 * u32::from(f.af)
        + 64 * u32::from(f.zf)
        + 128 * u32::from(f.sf)
        + 1024 * u32::from(f.df)
        + 2048 * u32::from(f.of)
}

/// The flags of a flags word.
// By name, as `pack`.
#[tactic(auto, unfolding(crate::specs::Word::flags_of))]
pub fn unpack(n: u32) -> Flags
    ensures { result ≡ flags_of n }
{
    let bits = u64::from(n);
    Flags {
        cf: bit_at(0, bits),
        pf: bit_at(2, bits),
        af: bit_at(4, bits),
        zf: bit_at(6, bits),
        sf: bit_at(7, bits),
        df: bit_at(10, bits),
        of: bit_at(11, bits),
    }
}

/// Does number 12 let the flags word pass?
pub fn passes(n: u32) -> bool
    ensures { result ≡ passes n }
{
    bit_at(1, u64::from(n)) && n & 0x0CD7 == n
}

/// What LAHF loads into AH.
pub fn ah(f: Flags) -> u32
    ensures { AhWord f result }
{
    pack(f) % 256
}

/// The flags after SAHF with this AH.
#[tactic(auto, unfolding(crate::specs::Word::flags_of, crate::specs::Word::from_ah))]
pub fn with_ah(n: u32, f: Flags) -> Flags
    ensures { result ≡ from_ah n f }
{
    Flags {
        df: f.df,
        of: f.of,
        ..unpack(n)
    }
}

/// A flag that 003 leaves undefined, where old is what it was.
#[tactic(auto, unfolding(crate::specs::Results::undefined_flag))]
pub fn undefined(old: bool) -> bool
    ensures { result ≡ undefined_flag old }
{
    false
}

/// The status flags all undefined, DF kept.
pub fn all_undefined(old: Flags) -> Flags
    ensures { result ≡ all_undefined old }
{
    Flags {
        cf: undefined(old.cf),
        pf: undefined(old.pf),
        af: undefined(old.af),
        zf: undefined(old.zf),
        sf: undefined(old.sf),
        df: old.df,
        of: undefined(old.of),
    }
}

/// Is the count of ones in the low 8 bits even?
#[tactic(auto, unfolding(crate::specs::Results::parity))]
pub fn parity(v: u32) -> bool
    ensures { result ≡ parity v }
{
    (v % 256).count_ones() % 2 == 0
}

/// SF, ZF and PF by the result v, CF, AF and OF as given, DF kept.
pub fn resulting(w: Size, v: u32, cf: bool, af: bool, of: bool, old: Flags) -> Flags
    ensures { result ≡ resulting w v cf af of old }
{
    Flags {
        cf,
        pf: parity(v),
        af,
        zf: v == 0,
        sf: w.negative(v),
        df: old.df,
        of,
    }
}

/// The word of a result: SF, ZF and PF by the result v, CF, AF and OF as given, DF as in the old word.
// By name: docs/CONTRACTS.md names it.
pub fn resulting_word(w: Size, v: u32, cf: bool, af: bool, of: bool, word: u32) -> u32
    ensures { flags_of result ≡ resulting w v cf af of (flags_of word) }
{
    pack(resulting(w, v, cf, af, of, unpack(word)))
}

/// Do the flags meet the condition with the number 2 * n? The one after it is its opposite.
// By number, as `meets`.
fn even(n: u32, f: Flags) -> bool
    requires { n < 8 }
    ensures { result ≡ meets (2 * n) f }
{
    match n {
        0 => f.of,
        1 => f.cf,
        2 => f.zf,
        3 => f.cf || f.zf,
        4 => f.sf,
        5 => f.pf,
        6 => f.sf != f.of,
        _ => f.zf || f.sf != f.of,
    }
}

// A condition stays a number, the last four bits of its opcode: an enum of sixteen would be made of it and then taken apart again.
/// Do the flags meet the condition with this number?
pub fn meets(n: u32, f: Flags) -> bool
    ensures { result ≡ meets n f }
{
    let held = even(n / 2 % 8, f);
    if n % 2 == 1 { !held } else { held }
}
