//! What follows the opcodes of each row, and which prefixes they take.
ghost use Rattle.std.specs.Prelude.{◌≡◌};
ghost use Rattle.grammar.specs.Opcodes.{rule_of};

use crate::rows::row;
use crate::rule::{Immediate, ModRM, Prefix66, PrefixRepeat, Rule};

/// The rules, one for each `Row` in its order.
#[rattlefmt::skip]
static RULES: [Option<Rule>; 99] = [
    Some(Rule { modrm: ModRM::Any, immediate: Immediate::Absent, size: Prefix66::Refused, repeats: PrefixRepeat::Refused }), // AluRmRegByte
    Some(Rule { modrm: ModRM::Any, immediate: Immediate::Absent, size: Prefix66::Allowed, repeats: PrefixRepeat::Refused }), // AluRmRegWide
    Some(Rule { modrm: ModRM::Any, immediate: Immediate::Absent, size: Prefix66::Refused, repeats: PrefixRepeat::Refused }), // AluRegRmByte
    Some(Rule { modrm: ModRM::Any, immediate: Immediate::Absent, size: Prefix66::Allowed, repeats: PrefixRepeat::Refused }), // AluRegRmWide
    Some(Rule { modrm: ModRM::Absent, immediate: Immediate::Imm8, size: Prefix66::Refused, repeats: PrefixRepeat::Refused }), // AluAccumulatorImmByte
    Some(Rule { modrm: ModRM::Absent, immediate: Immediate::ImmV, size: Prefix66::Allowed, repeats: PrefixRepeat::Refused }), // AluAccumulatorImmWide
    Some(Rule { modrm: ModRM::Absent, immediate: Immediate::Absent, size: Prefix66::Allowed, repeats: PrefixRepeat::Refused }), // Inc
    Some(Rule { modrm: ModRM::Absent, immediate: Immediate::Absent, size: Prefix66::Allowed, repeats: PrefixRepeat::Refused }), // Dec
    Some(Rule { modrm: ModRM::Absent, immediate: Immediate::Absent, size: Prefix66::Refused, repeats: PrefixRepeat::Refused }), // PushFromOpcode
    Some(Rule { modrm: ModRM::Absent, immediate: Immediate::Absent, size: Prefix66::Refused, repeats: PrefixRepeat::Refused }), // Pop
    Some(Rule { modrm: ModRM::Absent, immediate: Immediate::Imm32, size: Prefix66::Refused, repeats: PrefixRepeat::Refused }), // PushFromImm
    Some(Rule { modrm: ModRM::Absent, immediate: Immediate::Imm8, size: Prefix66::Refused, repeats: PrefixRepeat::Refused }), // PushFromSigned
    Some(Rule { modrm: ModRM::Any, immediate: Immediate::ImmV, size: Prefix66::Allowed, repeats: PrefixRepeat::Refused }), // ImulLowRegRmImm
    Some(Rule { modrm: ModRM::Any, immediate: Immediate::Imm8, size: Prefix66::Allowed, repeats: PrefixRepeat::Refused }), // ImulLowRegRmSigned
    Some(Rule { modrm: ModRM::Absent, immediate: Immediate::Rel8, size: Prefix66::Refused, repeats: PrefixRepeat::Refused }), // JumpIfRel8
    Some(Rule { modrm: ModRM::Absent, immediate: Immediate::Rel8, size: Prefix66::Refused, repeats: PrefixRepeat::Refused }), // Loopne
    Some(Rule { modrm: ModRM::Absent, immediate: Immediate::Rel8, size: Prefix66::Refused, repeats: PrefixRepeat::Refused }), // Loope
    Some(Rule { modrm: ModRM::Absent, immediate: Immediate::Rel8, size: Prefix66::Refused, repeats: PrefixRepeat::Refused }), // Loop
    Some(Rule { modrm: ModRM::Absent, immediate: Immediate::Rel8, size: Prefix66::Refused, repeats: PrefixRepeat::Refused }), // Jecxz
    Some(Rule { modrm: ModRM::Absent, immediate: Immediate::Rel8, size: Prefix66::Refused, repeats: PrefixRepeat::Refused }), // JumpRel8
    Some(Rule { modrm: ModRM::Absent, immediate: Immediate::Rel32, size: Prefix66::Refused, repeats: PrefixRepeat::Refused }), // Call
    Some(Rule { modrm: ModRM::Absent, immediate: Immediate::Rel32, size: Prefix66::Refused, repeats: PrefixRepeat::Refused }), // JumpRel32
    Some(Rule { modrm: ModRM::Absent, immediate: Immediate::Rel32, size: Prefix66::Refused, repeats: PrefixRepeat::Refused }), // JumpIfRel32
    Some(Rule { modrm: ModRM::Any, immediate: Immediate::Imm8, size: Prefix66::Refused, repeats: PrefixRepeat::Refused }), // AluGroupRmImmByte
    Some(Rule { modrm: ModRM::Any, immediate: Immediate::ImmV, size: Prefix66::Allowed, repeats: PrefixRepeat::Refused }), // AluGroupRmImmWide
    Some(Rule { modrm: ModRM::Any, immediate: Immediate::Imm8, size: Prefix66::Allowed, repeats: PrefixRepeat::Refused }), // AluGroupRmSigned
    Some(Rule { modrm: ModRM::Any, immediate: Immediate::Absent, size: Prefix66::Refused, repeats: PrefixRepeat::Refused }), // TestRmRegByte
    Some(Rule { modrm: ModRM::Any, immediate: Immediate::Absent, size: Prefix66::Allowed, repeats: PrefixRepeat::Refused }), // TestRmRegWide
    Some(Rule { modrm: ModRM::Any, immediate: Immediate::Absent, size: Prefix66::Refused, repeats: PrefixRepeat::Refused }), // XchgRmRegByte
    Some(Rule { modrm: ModRM::Any, immediate: Immediate::Absent, size: Prefix66::Allowed, repeats: PrefixRepeat::Refused }), // XchgRmRegWide
    Some(Rule { modrm: ModRM::Any, immediate: Immediate::Absent, size: Prefix66::Refused, repeats: PrefixRepeat::Refused }), // MovRmRegByte
    Some(Rule { modrm: ModRM::Any, immediate: Immediate::Absent, size: Prefix66::Allowed, repeats: PrefixRepeat::Refused }), // MovRmRegWide
    Some(Rule { modrm: ModRM::Any, immediate: Immediate::Absent, size: Prefix66::Refused, repeats: PrefixRepeat::Refused }), // MovRegRmByte
    Some(Rule { modrm: ModRM::Any, immediate: Immediate::Absent, size: Prefix66::Allowed, repeats: PrefixRepeat::Refused }), // MovRegRmWide
    Some(Rule { modrm: ModRM::Memory, immediate: Immediate::Absent, size: Prefix66::Refused, repeats: PrefixRepeat::Refused }), // Lea
    Some(Rule { modrm: ModRM::Absent, immediate: Immediate::Absent, size: Prefix66::Allowed, repeats: PrefixRepeat::Refused }), // XchgAccumulatorOpcode
    Some(Rule { modrm: ModRM::Absent, immediate: Immediate::Absent, size: Prefix66::Allowed, repeats: PrefixRepeat::Refused }), // Convert
    Some(Rule { modrm: ModRM::Absent, immediate: Immediate::Absent, size: Prefix66::Allowed, repeats: PrefixRepeat::Refused }), // Spread
    Some(Rule { modrm: ModRM::Absent, immediate: Immediate::Absent, size: Prefix66::Refused, repeats: PrefixRepeat::Refused }), // Sahf
    Some(Rule { modrm: ModRM::Absent, immediate: Immediate::Absent, size: Prefix66::Refused, repeats: PrefixRepeat::Refused }), // Lahf
    Some(Rule { modrm: ModRM::Absent, immediate: Immediate::Address, size: Prefix66::Refused, repeats: PrefixRepeat::Refused }), // MovAccumulatorOffsetByte
    Some(Rule { modrm: ModRM::Absent, immediate: Immediate::Address, size: Prefix66::Allowed, repeats: PrefixRepeat::Refused }), // MovAccumulatorOffsetWide
    Some(Rule { modrm: ModRM::Absent, immediate: Immediate::Address, size: Prefix66::Refused, repeats: PrefixRepeat::Refused }), // MovOffsetAccumulatorByte
    Some(Rule { modrm: ModRM::Absent, immediate: Immediate::Address, size: Prefix66::Allowed, repeats: PrefixRepeat::Refused }), // MovOffsetAccumulatorWide
    Some(Rule { modrm: ModRM::Absent, immediate: Immediate::Absent, size: Prefix66::Refused, repeats: PrefixRepeat::Refused }), // Leave
    Some(Rule { modrm: ModRM::Absent, immediate: Immediate::Absent, size: Prefix66::Refused, repeats: PrefixRepeat::F3 }), // MovsByte
    Some(Rule { modrm: ModRM::Absent, immediate: Immediate::Absent, size: Prefix66::Allowed, repeats: PrefixRepeat::F3 }), // MovsWide
    Some(Rule { modrm: ModRM::Absent, immediate: Immediate::Absent, size: Prefix66::Refused, repeats: PrefixRepeat::Either }), // CmpsByte
    Some(Rule { modrm: ModRM::Absent, immediate: Immediate::Absent, size: Prefix66::Allowed, repeats: PrefixRepeat::Either }), // CmpsWide
    Some(Rule { modrm: ModRM::Absent, immediate: Immediate::Absent, size: Prefix66::Refused, repeats: PrefixRepeat::F3 }), // StosByte
    Some(Rule { modrm: ModRM::Absent, immediate: Immediate::Absent, size: Prefix66::Allowed, repeats: PrefixRepeat::F3 }), // StosWide
    Some(Rule { modrm: ModRM::Absent, immediate: Immediate::Absent, size: Prefix66::Refused, repeats: PrefixRepeat::F3 }), // LodsByte
    Some(Rule { modrm: ModRM::Absent, immediate: Immediate::Absent, size: Prefix66::Allowed, repeats: PrefixRepeat::F3 }), // LodsWide
    Some(Rule { modrm: ModRM::Absent, immediate: Immediate::Absent, size: Prefix66::Refused, repeats: PrefixRepeat::Either }), // ScasByte
    Some(Rule { modrm: ModRM::Absent, immediate: Immediate::Absent, size: Prefix66::Allowed, repeats: PrefixRepeat::Either }), // ScasWide
    Some(Rule { modrm: ModRM::Absent, immediate: Immediate::Imm8, size: Prefix66::Refused, repeats: PrefixRepeat::Refused }), // TestAccumulatorImmByte
    Some(Rule { modrm: ModRM::Absent, immediate: Immediate::ImmV, size: Prefix66::Allowed, repeats: PrefixRepeat::Refused }), // TestAccumulatorImmWide
    Some(Rule { modrm: ModRM::Absent, immediate: Immediate::Imm8, size: Prefix66::Refused, repeats: PrefixRepeat::Refused }), // MovOpcodeImmByte
    Some(Rule { modrm: ModRM::Absent, immediate: Immediate::ImmV, size: Prefix66::Allowed, repeats: PrefixRepeat::Refused }), // MovOpcodeImmWide
    Some(Rule { modrm: ModRM::AllBut6, immediate: Immediate::Imm8, size: Prefix66::Refused, repeats: PrefixRepeat::Refused }), // ShiftGroupRmImmByte
    Some(Rule { modrm: ModRM::AllBut6, immediate: Immediate::Imm8, size: Prefix66::Allowed, repeats: PrefixRepeat::Refused }), // ShiftGroupRmImmWide
    Some(Rule { modrm: ModRM::AllBut6, immediate: Immediate::Absent, size: Prefix66::Refused, repeats: PrefixRepeat::Refused }), // ShiftGroupRmOneByte
    Some(Rule { modrm: ModRM::AllBut6, immediate: Immediate::Absent, size: Prefix66::Allowed, repeats: PrefixRepeat::Refused }), // ShiftGroupRmOneWide
    Some(Rule { modrm: ModRM::AllBut6, immediate: Immediate::Absent, size: Prefix66::Refused, repeats: PrefixRepeat::Refused }), // ShiftGroupRmClByte
    Some(Rule { modrm: ModRM::AllBut6, immediate: Immediate::Absent, size: Prefix66::Allowed, repeats: PrefixRepeat::Refused }), // ShiftGroupRmClWide
    Some(Rule { modrm: ModRM::Absent, immediate: Immediate::Imm16, size: Prefix66::Refused, repeats: PrefixRepeat::Refused }), // ReturnFromImm
    Some(Rule { modrm: ModRM::Absent, immediate: Immediate::Absent, size: Prefix66::Refused, repeats: PrefixRepeat::Refused }), // Return
    Some(Rule { modrm: ModRM::Only0, immediate: Immediate::Imm8, size: Prefix66::Refused, repeats: PrefixRepeat::Refused }), // MovRmImmByte
    Some(Rule { modrm: ModRM::Only0, immediate: Immediate::ImmV, size: Prefix66::Allowed, repeats: PrefixRepeat::Refused }), // MovRmImmWide
    Some(Rule { modrm: ModRM::Absent, immediate: Immediate::Absent, size: Prefix66::Refused, repeats: PrefixRepeat::Refused }), // Cmc
    Some(Rule { modrm: ModRM::Absent, immediate: Immediate::Absent, size: Prefix66::Refused, repeats: PrefixRepeat::Refused }), // Clc
    Some(Rule { modrm: ModRM::Absent, immediate: Immediate::Absent, size: Prefix66::Refused, repeats: PrefixRepeat::Refused }), // Stc
    Some(Rule { modrm: ModRM::Absent, immediate: Immediate::Absent, size: Prefix66::Refused, repeats: PrefixRepeat::Refused }), // Cld
    Some(Rule { modrm: ModRM::Absent, immediate: Immediate::Absent, size: Prefix66::Refused, repeats: PrefixRepeat::Refused }), // Std
    Some(Rule { modrm: ModRM::AllBut1, immediate: Immediate::Imm8For0, size: Prefix66::Refused, repeats: PrefixRepeat::Refused }), // ProductGroupRmImmByte
    Some(Rule { modrm: ModRM::AllBut1, immediate: Immediate::ImmVFor0, size: Prefix66::Allowed, repeats: PrefixRepeat::Refused }), // ProductGroupRmImmWide
    Some(Rule { modrm: ModRM::Only01, immediate: Immediate::Absent, size: Prefix66::Refused, repeats: PrefixRepeat::Refused }), // IncDecGroup
    Some(Rule { modrm: ModRM::Only01246, immediate: Immediate::Absent, size: Prefix66::Only01, repeats: PrefixRepeat::Refused }), // LastGroup
    Some(Rule { modrm: ModRM::Any, immediate: Immediate::Absent, size: Prefix66::Refused, repeats: PrefixRepeat::Refused }), // Set
    Some(Rule { modrm: ModRM::Any, immediate: Immediate::Absent, size: Prefix66::Allowed, repeats: PrefixRepeat::Refused }), // ImulLowRegRmReg
    Some(Rule { modrm: ModRM::Any, immediate: Immediate::Absent, size: Prefix66::Allowed, repeats: PrefixRepeat::Refused }), // MovZeroByte
    Some(Rule { modrm: ModRM::Any, immediate: Immediate::Absent, size: Prefix66::Refused, repeats: PrefixRepeat::Refused }), // MovZeroWord
    Some(Rule { modrm: ModRM::Any, immediate: Immediate::Absent, size: Prefix66::Allowed, repeats: PrefixRepeat::Refused }), // MovSignByte
    Some(Rule { modrm: ModRM::Any, immediate: Immediate::Absent, size: Prefix66::Refused, repeats: PrefixRepeat::Refused }), // MovSignWord
    Some(Rule { modrm: ModRM::Absent, immediate: Immediate::Absent, size: Prefix66::Refused, repeats: PrefixRepeat::Refused }), // Bswap
    Some(Rule { modrm: ModRM::Any, immediate: Immediate::Absent, size: Prefix66::Allowed, repeats: PrefixRepeat::Refused }), // MovIf
    Some(Rule { modrm: ModRM::Any, immediate: Immediate::Absent, size: Prefix66::Allowed, repeats: PrefixRepeat::Refused }), // BitTest
    Some(Rule { modrm: ModRM::Only4567, immediate: Immediate::Imm8, size: Prefix66::Allowed, repeats: PrefixRepeat::Refused }), // BitTestGroup
    Some(Rule { modrm: ModRM::Any, immediate: Immediate::Absent, size: Prefix66::Allowed, repeats: PrefixRepeat::Refused }), // Bsf
    Some(Rule { modrm: ModRM::Any, immediate: Immediate::Absent, size: Prefix66::Allowed, repeats: PrefixRepeat::Refused }), // Bsr
    Some(Rule { modrm: ModRM::Any, immediate: Immediate::Imm8, size: Prefix66::Allowed, repeats: PrefixRepeat::Refused }), // ShldRmRegImm
    Some(Rule { modrm: ModRM::Any, immediate: Immediate::Absent, size: Prefix66::Allowed, repeats: PrefixRepeat::Refused }), // ShldRmRegCl
    Some(Rule { modrm: ModRM::Any, immediate: Immediate::Imm8, size: Prefix66::Allowed, repeats: PrefixRepeat::Refused }), // ShrdRmRegImm
    Some(Rule { modrm: ModRM::Any, immediate: Immediate::Absent, size: Prefix66::Allowed, repeats: PrefixRepeat::Refused }), // ShrdRmRegCl
    Some(Rule { modrm: ModRM::Any, immediate: Immediate::Absent, size: Prefix66::Refused, repeats: PrefixRepeat::F3Asked }), // MoveSingleRegRm
    Some(Rule { modrm: ModRM::Any, immediate: Immediate::Absent, size: Prefix66::Refused, repeats: PrefixRepeat::F3Asked }), // MoveSingleRmReg
    Some(Rule { modrm: ModRM::Any, immediate: Immediate::Absent, size: Prefix66::Refused, repeats: PrefixRepeat::F3Asked }), // ComputeSingleRegRm
    Some(Rule { modrm: ModRM::Any, immediate: Immediate::Absent, size: Prefix66::Refused, repeats: PrefixRepeat::Refused }), // CompareSingleRegRm
    None, // Unlisted
];

/// The rule of an opcode: 00 to FF alone, 100 to 1FF after 0F.
pub fn look_up(opcode: usize) -> Option<Rule>
    ensures { result ≡ rule_of opcode }
{
    RULES[row(opcode) as usize]
}
