//! What an opcode's rule asks of the other parts of an instruction, and how many bytes they have.
ghost use Rattle.std.specs.Prelude.{◌≡◌};
ghost use Rattle.grammar.specs.Grammar.{allows, allows66, allows_repeat, only01246, has_sib, bare_length, displacement_length, immediate_length, operand_size};
ghost use Rattle.grammar.specs.Decoding.{has_modrm, escapes};

use crate::rule::{Immediate, ModRM, Prefix66, PrefixRepeat, Repeat};

/// Whether a ModR/M byte follows the opcode.
pub fn has_modrm(rule: ModRM) -> bool
    ensures { result ≡ has_modrm rule }
{
    !matches!(rule, ModRM::Absent)
}

/// Whether the reg field is 0, 1, 2, 4 or 6.
fn is_01246(field: u8) -> bool
    ensures { result ≡ only01246 field }
{
    matches!(field, 0..=2 | 4 | 6)
}

/// Whether the ModR/M byte is one that the rule allows.
pub fn allows_modrm(rule: ModRM, m: u8) -> bool
    ensures { result ≡ allows rule m }
{
    let field = m / 8 % 8;
    match rule {
        ModRM::Absent => false,
        ModRM::Any => true,
        ModRM::Memory => m / 64 != 3,
        ModRM::AllBut6 => field != 6,
        ModRM::Only0 => field == 0,
        ModRM::AllBut1 => field != 1,
        ModRM::Only01 => field <= 1,
        ModRM::Only01246 => is_01246(field),
        ModRM::Only4567 => 4 <= field,
    }
}

/// Whether 66, or its absence, is allowed before an opcode with this reg field.
pub fn allows_66(rule: Prefix66, narrow: bool, field: u8) -> bool
    ensures { result ≡ allows66 rule narrow field }
{
    match rule {
        Prefix66::Refused => !narrow,
        Prefix66::Allowed => true,
        Prefix66::Only01 => !narrow || field <= 1,
    }
}

/// Whether F2, F3 or their absence is allowed before an opcode.
pub fn allows_repeat(rule: PrefixRepeat, repeat: Repeat) -> bool
    ensures { result ≡ allows_repeat rule repeat }
{
    match repeat {
        Repeat::Absent => !matches!(rule, PrefixRepeat::F3Asked),
        Repeat::F2 => matches!(rule, PrefixRepeat::F2 | PrefixRepeat::Either),
        Repeat::F3 => matches!(
            rule,
            PrefixRepeat::F3 | PrefixRepeat::Either | PrefixRepeat::F3Asked
        ),
    }
}

/// Whether the prefixes are allowed before any opcode after 0F.
// Two parameters, as `escapes` has them: `Prefixes` is private to `decode`.
pub fn escapes_after(narrow: bool, repeat: Repeat) -> bool
    ensures { result ≡ escapes narrow repeat }
{
    match repeat {
        Repeat::Absent => true,
        Repeat::F2 => false,
        Repeat::F3 => !narrow,
    }
}

/// Whether a SIB byte follows the ModR/M byte.
pub fn has_sib(m: u8) -> bool
    ensures { result ≡ has_sib m }
{
    m % 8 == 4 && m / 64 != 3
}

/// How many bytes the displacement has with Mod 0.
#[tactic(auto, unfolding(crate::specs::Grammar::bare_length, crate::specs::Choice::pick))]
fn bare_length(m: u8, sib: u8) -> usize
    ensures { result ≡ bare_length m sib }
{
    let rm = m % 8;
    if rm == 5 || (rm == 4 && sib % 8 == 5) {
        4
    } else {
        0
    }
}

/// How many bytes the displacement has.
pub fn displacement_length(m: u8, sib: u8) -> usize
    ensures { result ≡ displacement_length m sib }
{
    match m / 64 {
        0 => bare_length(m, sib),
        1 => 1,
        2 => 4,
        _ => 0,
    }
}

/// How many bytes "v" has.
fn operand_size(narrow: bool) -> usize
    ensures { result ≡ operand_size narrow }
{
    if narrow { 2 } else { 4 }
}

/// How many bytes the immediate has.
pub fn immediate_length(rule: Immediate, narrow: bool, field: u8) -> usize
    ensures { result ≡ immediate_length rule narrow field }
{
    match rule {
        Immediate::Absent => 0,
        Immediate::Imm8 => 1,
        Immediate::Imm16 => 2,
        Immediate::Imm32 => 4,
        Immediate::ImmV => operand_size(narrow),
        Immediate::Address => 4,
        Immediate::Rel8 => 1,
        Immediate::Rel32 => 4,
        Immediate::Imm8For0 => if field == 0 { 1 } else { 0 },
        Immediate::ImmVFor0 => if field == 0 { operand_size(narrow) } else { 0 },
    }
}
