//! What the opcodes of each row mean.
ghost use Rattle.std.specs.Prelude.{◌≡◌};
ghost use Rattle.sense.specs.Senses.{sense_of};

use crate::{Kind, Place, Sense};
use grammar::rows::row;

/// The meanings, one for each `Row` in its order.
#[rattlefmt::skip]
static SENSES: [Sense; 99] = [
    Sense { kind: Kind::Alu, byte: true, destination: Place::Rm, source: Place::Reg, other: Place::Absent }, // AluRmRegByte
    Sense { kind: Kind::Alu, byte: false, destination: Place::Rm, source: Place::Reg, other: Place::Absent }, // AluRmRegWide
    Sense { kind: Kind::Alu, byte: true, destination: Place::Reg, source: Place::Rm, other: Place::Absent }, // AluRegRmByte
    Sense { kind: Kind::Alu, byte: false, destination: Place::Reg, source: Place::Rm, other: Place::Absent }, // AluRegRmWide
    Sense { kind: Kind::Alu, byte: true, destination: Place::Accumulator, source: Place::Immediate, other: Place::Absent }, // AluAccumulatorImmByte
    Sense { kind: Kind::Alu, byte: false, destination: Place::Accumulator, source: Place::Immediate, other: Place::Absent }, // AluAccumulatorImmWide
    Sense { kind: Kind::Inc, byte: false, destination: Place::OpcodeRegister, source: Place::Absent, other: Place::Absent }, // Inc
    Sense { kind: Kind::Dec, byte: false, destination: Place::OpcodeRegister, source: Place::Absent, other: Place::Absent }, // Dec
    Sense { kind: Kind::Push, byte: false, destination: Place::Absent, source: Place::OpcodeRegister, other: Place::Absent }, // PushFromOpcode
    Sense { kind: Kind::Pop, byte: false, destination: Place::OpcodeRegister, source: Place::Absent, other: Place::Absent }, // Pop
    Sense { kind: Kind::Push, byte: false, destination: Place::Absent, source: Place::Immediate, other: Place::Absent }, // PushFromImm
    Sense { kind: Kind::Push, byte: false, destination: Place::Absent, source: Place::SignedImmediate, other: Place::Absent }, // PushFromSigned
    Sense { kind: Kind::ImulLow, byte: false, destination: Place::Reg, source: Place::Rm, other: Place::Immediate }, // ImulLowRegRmImm
    Sense { kind: Kind::ImulLow, byte: false, destination: Place::Reg, source: Place::Rm, other: Place::SignedImmediate }, // ImulLowRegRmSigned
    Sense { kind: Kind::JumpIf, byte: false, destination: Place::Absent, source: Place::Absent, other: Place::Absent }, // JumpIfRel8
    Sense { kind: Kind::Loopne, byte: false, destination: Place::Absent, source: Place::Absent, other: Place::Absent }, // Loopne
    Sense { kind: Kind::Loope, byte: false, destination: Place::Absent, source: Place::Absent, other: Place::Absent }, // Loope
    Sense { kind: Kind::Loop, byte: false, destination: Place::Absent, source: Place::Absent, other: Place::Absent }, // Loop
    Sense { kind: Kind::Jecxz, byte: false, destination: Place::Absent, source: Place::Absent, other: Place::Absent }, // Jecxz
    Sense { kind: Kind::Jump, byte: false, destination: Place::Absent, source: Place::Absent, other: Place::Absent }, // JumpRel8
    Sense { kind: Kind::Call, byte: false, destination: Place::Absent, source: Place::Absent, other: Place::Absent }, // Call
    Sense { kind: Kind::Jump, byte: false, destination: Place::Absent, source: Place::Absent, other: Place::Absent }, // JumpRel32
    Sense { kind: Kind::JumpIf, byte: false, destination: Place::Absent, source: Place::Absent, other: Place::Absent }, // JumpIfRel32
    Sense { kind: Kind::AluGroup, byte: true, destination: Place::Rm, source: Place::Immediate, other: Place::Absent }, // AluGroupRmImmByte
    Sense { kind: Kind::AluGroup, byte: false, destination: Place::Rm, source: Place::Immediate, other: Place::Absent }, // AluGroupRmImmWide
    Sense { kind: Kind::AluGroup, byte: false, destination: Place::Rm, source: Place::SignedImmediate, other: Place::Absent }, // AluGroupRmSigned
    Sense { kind: Kind::Test, byte: true, destination: Place::Rm, source: Place::Reg, other: Place::Absent }, // TestRmRegByte
    Sense { kind: Kind::Test, byte: false, destination: Place::Rm, source: Place::Reg, other: Place::Absent }, // TestRmRegWide
    Sense { kind: Kind::Xchg, byte: true, destination: Place::Rm, source: Place::Reg, other: Place::Absent }, // XchgRmRegByte
    Sense { kind: Kind::Xchg, byte: false, destination: Place::Rm, source: Place::Reg, other: Place::Absent }, // XchgRmRegWide
    Sense { kind: Kind::Mov, byte: true, destination: Place::Rm, source: Place::Reg, other: Place::Absent }, // MovRmRegByte
    Sense { kind: Kind::Mov, byte: false, destination: Place::Rm, source: Place::Reg, other: Place::Absent }, // MovRmRegWide
    Sense { kind: Kind::Mov, byte: true, destination: Place::Reg, source: Place::Rm, other: Place::Absent }, // MovRegRmByte
    Sense { kind: Kind::Mov, byte: false, destination: Place::Reg, source: Place::Rm, other: Place::Absent }, // MovRegRmWide
    Sense { kind: Kind::Lea, byte: false, destination: Place::Reg, source: Place::Rm, other: Place::Absent }, // Lea
    Sense { kind: Kind::Xchg, byte: false, destination: Place::Accumulator, source: Place::OpcodeRegister, other: Place::Absent }, // XchgAccumulatorOpcode
    Sense { kind: Kind::Convert, byte: false, destination: Place::Absent, source: Place::Absent, other: Place::Absent }, // Convert
    Sense { kind: Kind::Spread, byte: false, destination: Place::Absent, source: Place::Absent, other: Place::Absent }, // Spread
    Sense { kind: Kind::Sahf, byte: false, destination: Place::Absent, source: Place::Absent, other: Place::Absent }, // Sahf
    Sense { kind: Kind::Lahf, byte: false, destination: Place::Absent, source: Place::Absent, other: Place::Absent }, // Lahf
    Sense { kind: Kind::Mov, byte: true, destination: Place::Accumulator, source: Place::Offset, other: Place::Absent }, // MovAccumulatorOffsetByte
    Sense { kind: Kind::Mov, byte: false, destination: Place::Accumulator, source: Place::Offset, other: Place::Absent }, // MovAccumulatorOffsetWide
    Sense { kind: Kind::Mov, byte: true, destination: Place::Offset, source: Place::Accumulator, other: Place::Absent }, // MovOffsetAccumulatorByte
    Sense { kind: Kind::Mov, byte: false, destination: Place::Offset, source: Place::Accumulator, other: Place::Absent }, // MovOffsetAccumulatorWide
    Sense { kind: Kind::Leave, byte: false, destination: Place::Absent, source: Place::Absent, other: Place::Absent }, // Leave
    Sense { kind: Kind::Movs, byte: true, destination: Place::Absent, source: Place::Absent, other: Place::Absent }, // MovsByte
    Sense { kind: Kind::Movs, byte: false, destination: Place::Absent, source: Place::Absent, other: Place::Absent }, // MovsWide
    Sense { kind: Kind::Cmps, byte: true, destination: Place::Absent, source: Place::Absent, other: Place::Absent }, // CmpsByte
    Sense { kind: Kind::Cmps, byte: false, destination: Place::Absent, source: Place::Absent, other: Place::Absent }, // CmpsWide
    Sense { kind: Kind::Stos, byte: true, destination: Place::Absent, source: Place::Absent, other: Place::Absent }, // StosByte
    Sense { kind: Kind::Stos, byte: false, destination: Place::Absent, source: Place::Absent, other: Place::Absent }, // StosWide
    Sense { kind: Kind::Lods, byte: true, destination: Place::Absent, source: Place::Absent, other: Place::Absent }, // LodsByte
    Sense { kind: Kind::Lods, byte: false, destination: Place::Absent, source: Place::Absent, other: Place::Absent }, // LodsWide
    Sense { kind: Kind::Scas, byte: true, destination: Place::Absent, source: Place::Absent, other: Place::Absent }, // ScasByte
    Sense { kind: Kind::Scas, byte: false, destination: Place::Absent, source: Place::Absent, other: Place::Absent }, // ScasWide
    Sense { kind: Kind::Test, byte: true, destination: Place::Accumulator, source: Place::Immediate, other: Place::Absent }, // TestAccumulatorImmByte
    Sense { kind: Kind::Test, byte: false, destination: Place::Accumulator, source: Place::Immediate, other: Place::Absent }, // TestAccumulatorImmWide
    Sense { kind: Kind::Mov, byte: true, destination: Place::OpcodeRegister, source: Place::Immediate, other: Place::Absent }, // MovOpcodeImmByte
    Sense { kind: Kind::Mov, byte: false, destination: Place::OpcodeRegister, source: Place::Immediate, other: Place::Absent }, // MovOpcodeImmWide
    Sense { kind: Kind::ShiftGroup, byte: true, destination: Place::Rm, source: Place::Immediate, other: Place::Absent }, // ShiftGroupRmImmByte
    Sense { kind: Kind::ShiftGroup, byte: false, destination: Place::Rm, source: Place::Immediate, other: Place::Absent }, // ShiftGroupRmImmWide
    Sense { kind: Kind::ShiftGroup, byte: true, destination: Place::Rm, source: Place::One, other: Place::Absent }, // ShiftGroupRmOneByte
    Sense { kind: Kind::ShiftGroup, byte: false, destination: Place::Rm, source: Place::One, other: Place::Absent }, // ShiftGroupRmOneWide
    Sense { kind: Kind::ShiftGroup, byte: true, destination: Place::Rm, source: Place::Cl, other: Place::Absent }, // ShiftGroupRmClByte
    Sense { kind: Kind::ShiftGroup, byte: false, destination: Place::Rm, source: Place::Cl, other: Place::Absent }, // ShiftGroupRmClWide
    Sense { kind: Kind::Return, byte: false, destination: Place::Absent, source: Place::Immediate, other: Place::Absent }, // ReturnFromImm
    Sense { kind: Kind::Return, byte: false, destination: Place::Absent, source: Place::Absent, other: Place::Absent }, // Return
    Sense { kind: Kind::Mov, byte: true, destination: Place::Rm, source: Place::Immediate, other: Place::Absent }, // MovRmImmByte
    Sense { kind: Kind::Mov, byte: false, destination: Place::Rm, source: Place::Immediate, other: Place::Absent }, // MovRmImmWide
    Sense { kind: Kind::Cmc, byte: false, destination: Place::Absent, source: Place::Absent, other: Place::Absent }, // Cmc
    Sense { kind: Kind::Clc, byte: false, destination: Place::Absent, source: Place::Absent, other: Place::Absent }, // Clc
    Sense { kind: Kind::Stc, byte: false, destination: Place::Absent, source: Place::Absent, other: Place::Absent }, // Stc
    Sense { kind: Kind::Cld, byte: false, destination: Place::Absent, source: Place::Absent, other: Place::Absent }, // Cld
    Sense { kind: Kind::Std, byte: false, destination: Place::Absent, source: Place::Absent, other: Place::Absent }, // Std
    Sense { kind: Kind::ProductGroup, byte: true, destination: Place::Rm, source: Place::Immediate, other: Place::Absent }, // ProductGroupRmImmByte
    Sense { kind: Kind::ProductGroup, byte: false, destination: Place::Rm, source: Place::Immediate, other: Place::Absent }, // ProductGroupRmImmWide
    Sense { kind: Kind::IncDecGroup, byte: true, destination: Place::Rm, source: Place::Absent, other: Place::Absent }, // IncDecGroup
    Sense { kind: Kind::LastGroup, byte: false, destination: Place::Rm, source: Place::Rm, other: Place::Absent }, // LastGroup
    Sense { kind: Kind::Set, byte: true, destination: Place::Rm, source: Place::Absent, other: Place::Absent }, // Set
    Sense { kind: Kind::ImulLow, byte: false, destination: Place::Reg, source: Place::Rm, other: Place::Reg }, // ImulLowRegRmReg
    Sense { kind: Kind::MovZeroByte, byte: false, destination: Place::Reg, source: Place::Rm, other: Place::Absent }, // MovZeroByte
    Sense { kind: Kind::MovZeroWord, byte: false, destination: Place::Reg, source: Place::Rm, other: Place::Absent }, // MovZeroWord
    Sense { kind: Kind::MovSignByte, byte: false, destination: Place::Reg, source: Place::Rm, other: Place::Absent }, // MovSignByte
    Sense { kind: Kind::MovSignWord, byte: false, destination: Place::Reg, source: Place::Rm, other: Place::Absent }, // MovSignWord
    Sense { kind: Kind::Bswap, byte: false, destination: Place::OpcodeRegister, source: Place::Absent, other: Place::Absent }, // Bswap
    Sense { kind: Kind::MovIf, byte: false, destination: Place::Reg, source: Place::Rm, other: Place::Absent }, // MovIf
    Sense { kind: Kind::BitTest, byte: false, destination: Place::Rm, source: Place::Reg, other: Place::Absent }, // BitTest
    Sense { kind: Kind::BitTestGroup, byte: false, destination: Place::Rm, source: Place::Immediate, other: Place::Absent }, // BitTestGroup
    Sense { kind: Kind::Bsf, byte: false, destination: Place::Reg, source: Place::Rm, other: Place::Absent }, // Bsf
    Sense { kind: Kind::Bsr, byte: false, destination: Place::Reg, source: Place::Rm, other: Place::Absent }, // Bsr
    Sense { kind: Kind::Shld, byte: false, destination: Place::Rm, source: Place::Reg, other: Place::Immediate }, // ShldRmRegImm
    Sense { kind: Kind::Shld, byte: false, destination: Place::Rm, source: Place::Reg, other: Place::Cl }, // ShldRmRegCl
    Sense { kind: Kind::Shrd, byte: false, destination: Place::Rm, source: Place::Reg, other: Place::Immediate }, // ShrdRmRegImm
    Sense { kind: Kind::Shrd, byte: false, destination: Place::Rm, source: Place::Reg, other: Place::Cl }, // ShrdRmRegCl
    Sense { kind: Kind::MoveSingle, byte: false, destination: Place::Reg, source: Place::Rm, other: Place::Absent }, // MoveSingleRegRm
    Sense { kind: Kind::MoveSingle, byte: false, destination: Place::Rm, source: Place::Reg, other: Place::Absent }, // MoveSingleRmReg
    Sense { kind: Kind::ComputeSingle, byte: false, destination: Place::Reg, source: Place::Rm, other: Place::Absent }, // ComputeSingleRegRm
    Sense { kind: Kind::CompareSingle, byte: false, destination: Place::Reg, source: Place::Rm, other: Place::Absent }, // CompareSingleRegRm
    Sense { kind: Kind::Mov, byte: false, destination: Place::Absent, source: Place::Absent, other: Place::Absent }, // Unlisted
];

/// What an opcode means; one that is not listed would move nothing to nowhere.
pub fn sense(opcode: usize) -> Sense
    ensures { result ≡ sense_of opcode }
{
    SENSES[row(opcode) as usize]
}
