//! The table of opcodes: each has a row. The opcodes of a row have one rule and one meaning; where these name several operations, the opcode's own bits or the reg field tell which.
ghost use Rattle.std.specs.Prelude.{◌≡◌};
ghost use Rattle.grammar.specs.Rows.{row_of, row_at, number_of};

use crate::rule::Row;

/// The rows of the opcodes: 00 to FF alone, then 00 to FF after 0F.
#[rattlefmt::skip]
static ROWS: [Row; 512] = [
    Row::AluRmRegByte, // 00 ADD
    Row::AluRmRegWide, // 01 ADD
    Row::AluRegRmByte, // 02 ADD
    Row::AluRegRmWide, // 03 ADD
    Row::AluAccumulatorImmByte, // 04 ADD
    Row::AluAccumulatorImmWide, // 05 ADD
    Row::Unlisted, // 06
    Row::Unlisted, // 07
    Row::AluRmRegByte, // 08 OR
    Row::AluRmRegWide, // 09 OR
    Row::AluRegRmByte, // 0A OR
    Row::AluRegRmWide, // 0B OR
    Row::AluAccumulatorImmByte, // 0C OR
    Row::AluAccumulatorImmWide, // 0D OR
    Row::Unlisted, // 0E
    Row::Unlisted, // 0F
    Row::AluRmRegByte, // 10 ADC
    Row::AluRmRegWide, // 11 ADC
    Row::AluRegRmByte, // 12 ADC
    Row::AluRegRmWide, // 13 ADC
    Row::AluAccumulatorImmByte, // 14 ADC
    Row::AluAccumulatorImmWide, // 15 ADC
    Row::Unlisted, // 16
    Row::Unlisted, // 17
    Row::AluRmRegByte, // 18 SBB
    Row::AluRmRegWide, // 19 SBB
    Row::AluRegRmByte, // 1A SBB
    Row::AluRegRmWide, // 1B SBB
    Row::AluAccumulatorImmByte, // 1C SBB
    Row::AluAccumulatorImmWide, // 1D SBB
    Row::Unlisted, // 1E
    Row::Unlisted, // 1F
    Row::AluRmRegByte, // 20 AND
    Row::AluRmRegWide, // 21 AND
    Row::AluRegRmByte, // 22 AND
    Row::AluRegRmWide, // 23 AND
    Row::AluAccumulatorImmByte, // 24 AND
    Row::AluAccumulatorImmWide, // 25 AND
    Row::Unlisted, // 26
    Row::Unlisted, // 27
    Row::AluRmRegByte, // 28 SUB
    Row::AluRmRegWide, // 29 SUB
    Row::AluRegRmByte, // 2A SUB
    Row::AluRegRmWide, // 2B SUB
    Row::AluAccumulatorImmByte, // 2C SUB
    Row::AluAccumulatorImmWide, // 2D SUB
    Row::Unlisted, // 2E
    Row::Unlisted, // 2F
    Row::AluRmRegByte, // 30 XOR
    Row::AluRmRegWide, // 31 XOR
    Row::AluRegRmByte, // 32 XOR
    Row::AluRegRmWide, // 33 XOR
    Row::AluAccumulatorImmByte, // 34 XOR
    Row::AluAccumulatorImmWide, // 35 XOR
    Row::Unlisted, // 36
    Row::Unlisted, // 37
    Row::AluRmRegByte, // 38 CMP
    Row::AluRmRegWide, // 39 CMP
    Row::AluRegRmByte, // 3A CMP
    Row::AluRegRmWide, // 3B CMP
    Row::AluAccumulatorImmByte, // 3C CMP
    Row::AluAccumulatorImmWide, // 3D CMP
    Row::Unlisted, // 3E
    Row::Unlisted, // 3F
    Row::Inc, // 40 INC
    Row::Inc, // 41 INC
    Row::Inc, // 42 INC
    Row::Inc, // 43 INC
    Row::Inc, // 44 INC
    Row::Inc, // 45 INC
    Row::Inc, // 46 INC
    Row::Inc, // 47 INC
    Row::Dec, // 48 DEC
    Row::Dec, // 49 DEC
    Row::Dec, // 4A DEC
    Row::Dec, // 4B DEC
    Row::Dec, // 4C DEC
    Row::Dec, // 4D DEC
    Row::Dec, // 4E DEC
    Row::Dec, // 4F DEC
    Row::PushFromOpcode, // 50 PUSH
    Row::PushFromOpcode, // 51 PUSH
    Row::PushFromOpcode, // 52 PUSH
    Row::PushFromOpcode, // 53 PUSH
    Row::PushFromOpcode, // 54 PUSH
    Row::PushFromOpcode, // 55 PUSH
    Row::PushFromOpcode, // 56 PUSH
    Row::PushFromOpcode, // 57 PUSH
    Row::Pop, // 58 POP
    Row::Pop, // 59 POP
    Row::Pop, // 5A POP
    Row::Pop, // 5B POP
    Row::Pop, // 5C POP
    Row::Pop, // 5D POP
    Row::Pop, // 5E POP
    Row::Pop, // 5F POP
    Row::Unlisted, // 60
    Row::Unlisted, // 61
    Row::Unlisted, // 62
    Row::Unlisted, // 63
    Row::Unlisted, // 64
    Row::Unlisted, // 65
    Row::Unlisted, // 66
    Row::Unlisted, // 67
    Row::PushFromImm, // 68 PUSH
    Row::ImulLowRegRmImm, // 69 IMUL
    Row::PushFromSigned, // 6A PUSH
    Row::ImulLowRegRmSigned, // 6B IMUL
    Row::Unlisted, // 6C
    Row::Unlisted, // 6D
    Row::Unlisted, // 6E
    Row::Unlisted, // 6F
    Row::JumpIfRel8, // 70 JO
    Row::JumpIfRel8, // 71 JNO
    Row::JumpIfRel8, // 72 JB
    Row::JumpIfRel8, // 73 JNB
    Row::JumpIfRel8, // 74 JE
    Row::JumpIfRel8, // 75 JNE
    Row::JumpIfRel8, // 76 JBE
    Row::JumpIfRel8, // 77 JNBE
    Row::JumpIfRel8, // 78 JS
    Row::JumpIfRel8, // 79 JNS
    Row::JumpIfRel8, // 7A JP
    Row::JumpIfRel8, // 7B JNP
    Row::JumpIfRel8, // 7C JL
    Row::JumpIfRel8, // 7D JNL
    Row::JumpIfRel8, // 7E JLE
    Row::JumpIfRel8, // 7F JNLE
    Row::AluGroupRmImmByte, // 80 ADD to CMP
    Row::AluGroupRmImmWide, // 81 ADD to CMP
    Row::Unlisted, // 82
    Row::AluGroupRmSigned, // 83 ADD to CMP
    Row::TestRmRegByte, // 84 TEST
    Row::TestRmRegWide, // 85 TEST
    Row::XchgRmRegByte, // 86 XCHG
    Row::XchgRmRegWide, // 87 XCHG
    Row::MovRmRegByte, // 88 MOV
    Row::MovRmRegWide, // 89 MOV
    Row::MovRegRmByte, // 8A MOV
    Row::MovRegRmWide, // 8B MOV
    Row::Unlisted, // 8C
    Row::Lea, // 8D LEA
    Row::Unlisted, // 8E
    Row::Unlisted, // 8F
    Row::XchgAccumulatorOpcode, // 90 XCHG
    Row::XchgAccumulatorOpcode, // 91 XCHG
    Row::XchgAccumulatorOpcode, // 92 XCHG
    Row::XchgAccumulatorOpcode, // 93 XCHG
    Row::XchgAccumulatorOpcode, // 94 XCHG
    Row::XchgAccumulatorOpcode, // 95 XCHG
    Row::XchgAccumulatorOpcode, // 96 XCHG
    Row::XchgAccumulatorOpcode, // 97 XCHG
    Row::Convert, // 98 CWDE
    Row::Spread, // 99 CDQ
    Row::Unlisted, // 9A
    Row::Unlisted, // 9B
    Row::Unlisted, // 9C
    Row::Unlisted, // 9D
    Row::Sahf, // 9E SAHF
    Row::Lahf, // 9F LAHF
    Row::MovAccumulatorOffsetByte, // A0 MOV
    Row::MovAccumulatorOffsetWide, // A1 MOV
    Row::MovOffsetAccumulatorByte, // A2 MOV
    Row::MovOffsetAccumulatorWide, // A3 MOV
    Row::MovsByte, // A4 MOVS
    Row::MovsWide, // A5 MOVS
    Row::CmpsByte, // A6 CMPS
    Row::CmpsWide, // A7 CMPS
    Row::TestAccumulatorImmByte, // A8 TEST
    Row::TestAccumulatorImmWide, // A9 TEST
    Row::StosByte, // AA STOS
    Row::StosWide, // AB STOS
    Row::LodsByte, // AC LODS
    Row::LodsWide, // AD LODS
    Row::ScasByte, // AE SCAS
    Row::ScasWide, // AF SCAS
    Row::MovOpcodeImmByte, // B0 MOV
    Row::MovOpcodeImmByte, // B1 MOV
    Row::MovOpcodeImmByte, // B2 MOV
    Row::MovOpcodeImmByte, // B3 MOV
    Row::MovOpcodeImmByte, // B4 MOV
    Row::MovOpcodeImmByte, // B5 MOV
    Row::MovOpcodeImmByte, // B6 MOV
    Row::MovOpcodeImmByte, // B7 MOV
    Row::MovOpcodeImmWide, // B8 MOV
    Row::MovOpcodeImmWide, // B9 MOV
    Row::MovOpcodeImmWide, // BA MOV
    Row::MovOpcodeImmWide, // BB MOV
    Row::MovOpcodeImmWide, // BC MOV
    Row::MovOpcodeImmWide, // BD MOV
    Row::MovOpcodeImmWide, // BE MOV
    Row::MovOpcodeImmWide, // BF MOV
    Row::ShiftGroupRmImmByte, // C0 ROL to SAR
    Row::ShiftGroupRmImmWide, // C1 ROL to SAR
    Row::ReturnFromImm, // C2 RET
    Row::Return, // C3 RET
    Row::Unlisted, // C4
    Row::Unlisted, // C5
    Row::MovRmImmByte, // C6 MOV
    Row::MovRmImmWide, // C7 MOV
    Row::Unlisted, // C8
    Row::Leave, // C9 LEAVE
    Row::Unlisted, // CA
    Row::Unlisted, // CB
    Row::Unlisted, // CC
    Row::Unlisted, // CD
    Row::Unlisted, // CE
    Row::Unlisted, // CF
    Row::ShiftGroupRmOneByte, // D0 ROL to SAR
    Row::ShiftGroupRmOneWide, // D1 ROL to SAR
    Row::ShiftGroupRmClByte, // D2 ROL to SAR
    Row::ShiftGroupRmClWide, // D3 ROL to SAR
    Row::Unlisted, // D4
    Row::Unlisted, // D5
    Row::Unlisted, // D6
    Row::Unlisted, // D7
    Row::Unlisted, // D8
    Row::Unlisted, // D9
    Row::Unlisted, // DA
    Row::Unlisted, // DB
    Row::Unlisted, // DC
    Row::Unlisted, // DD
    Row::Unlisted, // DE
    Row::Unlisted, // DF
    Row::Loopne, // E0 LOOPNE
    Row::Loope, // E1 LOOPE
    Row::Loop, // E2 LOOP
    Row::Jecxz, // E3 JECXZ
    Row::Unlisted, // E4
    Row::Unlisted, // E5
    Row::Unlisted, // E6
    Row::Unlisted, // E7
    Row::Call, // E8 CALL
    Row::JumpRel32, // E9 JMP
    Row::Unlisted, // EA
    Row::JumpRel8, // EB JMP
    Row::Unlisted, // EC
    Row::Unlisted, // ED
    Row::Unlisted, // EE
    Row::Unlisted, // EF
    Row::Unlisted, // F0
    Row::Unlisted, // F1
    Row::Unlisted, // F2
    Row::Unlisted, // F3
    Row::Unlisted, // F4
    Row::Cmc, // F5 CMC
    Row::ProductGroupRmImmByte, // F6 TEST NOT NEG MUL IMUL DIV IDIV
    Row::ProductGroupRmImmWide, // F7 TEST NOT NEG MUL IMUL DIV IDIV
    Row::Clc, // F8 CLC
    Row::Stc, // F9 STC
    Row::Unlisted, // FA
    Row::Unlisted, // FB
    Row::Cld, // FC CLD
    Row::Std, // FD STD
    Row::IncDecGroup, // FE INC DEC
    Row::LastGroup, // FF INC DEC CALL JMP PUSH
    Row::Unlisted, // 0F 00
    Row::Unlisted, // 0F 01
    Row::Unlisted, // 0F 02
    Row::Unlisted, // 0F 03
    Row::Unlisted, // 0F 04
    Row::Unlisted, // 0F 05
    Row::Unlisted, // 0F 06
    Row::Unlisted, // 0F 07
    Row::Unlisted, // 0F 08
    Row::Unlisted, // 0F 09
    Row::Unlisted, // 0F 0A
    Row::Unlisted, // 0F 0B
    Row::Unlisted, // 0F 0C
    Row::Unlisted, // 0F 0D
    Row::Unlisted, // 0F 0E
    Row::Unlisted, // 0F 0F
    Row::MoveSingleRegRm, // 0F 10 MOVSS
    Row::MoveSingleRmReg, // 0F 11 MOVSS
    Row::Unlisted, // 0F 12
    Row::Unlisted, // 0F 13
    Row::Unlisted, // 0F 14
    Row::Unlisted, // 0F 15
    Row::Unlisted, // 0F 16
    Row::Unlisted, // 0F 17
    Row::Unlisted, // 0F 18
    Row::Unlisted, // 0F 19
    Row::Unlisted, // 0F 1A
    Row::Unlisted, // 0F 1B
    Row::Unlisted, // 0F 1C
    Row::Unlisted, // 0F 1D
    Row::Unlisted, // 0F 1E
    Row::Unlisted, // 0F 1F
    Row::Unlisted, // 0F 20
    Row::Unlisted, // 0F 21
    Row::Unlisted, // 0F 22
    Row::Unlisted, // 0F 23
    Row::Unlisted, // 0F 24
    Row::Unlisted, // 0F 25
    Row::Unlisted, // 0F 26
    Row::Unlisted, // 0F 27
    Row::Unlisted, // 0F 28
    Row::Unlisted, // 0F 29
    Row::Unlisted, // 0F 2A
    Row::Unlisted, // 0F 2B
    Row::Unlisted, // 0F 2C
    Row::Unlisted, // 0F 2D
    Row::Unlisted, // 0F 2E
    Row::CompareSingleRegRm, // 0F 2F COMISS
    Row::Unlisted, // 0F 30
    Row::Unlisted, // 0F 31
    Row::Unlisted, // 0F 32
    Row::Unlisted, // 0F 33
    Row::Unlisted, // 0F 34
    Row::Unlisted, // 0F 35
    Row::Unlisted, // 0F 36
    Row::Unlisted, // 0F 37
    Row::Unlisted, // 0F 38
    Row::Unlisted, // 0F 39
    Row::Unlisted, // 0F 3A
    Row::Unlisted, // 0F 3B
    Row::Unlisted, // 0F 3C
    Row::Unlisted, // 0F 3D
    Row::Unlisted, // 0F 3E
    Row::Unlisted, // 0F 3F
    Row::MovIf, // 0F 40 CMOVcc
    Row::MovIf, // 0F 41 CMOVcc
    Row::MovIf, // 0F 42 CMOVcc
    Row::MovIf, // 0F 43 CMOVcc
    Row::MovIf, // 0F 44 CMOVcc
    Row::MovIf, // 0F 45 CMOVcc
    Row::MovIf, // 0F 46 CMOVcc
    Row::MovIf, // 0F 47 CMOVcc
    Row::MovIf, // 0F 48 CMOVcc
    Row::MovIf, // 0F 49 CMOVcc
    Row::MovIf, // 0F 4A CMOVcc
    Row::MovIf, // 0F 4B CMOVcc
    Row::MovIf, // 0F 4C CMOVcc
    Row::MovIf, // 0F 4D CMOVcc
    Row::MovIf, // 0F 4E CMOVcc
    Row::MovIf, // 0F 4F CMOVcc
    Row::Unlisted, // 0F 50
    Row::Unlisted, // 0F 51
    Row::Unlisted, // 0F 52
    Row::Unlisted, // 0F 53
    Row::Unlisted, // 0F 54
    Row::Unlisted, // 0F 55
    Row::Unlisted, // 0F 56
    Row::Unlisted, // 0F 57
    Row::ComputeSingleRegRm, // 0F 58 ADDSS
    Row::ComputeSingleRegRm, // 0F 59 MULSS
    Row::Unlisted, // 0F 5A
    Row::Unlisted, // 0F 5B
    Row::ComputeSingleRegRm, // 0F 5C SUBSS
    Row::ComputeSingleRegRm, // 0F 5D MINSS
    Row::ComputeSingleRegRm, // 0F 5E DIVSS
    Row::ComputeSingleRegRm, // 0F 5F MAXSS
    Row::Unlisted, // 0F 60
    Row::Unlisted, // 0F 61
    Row::Unlisted, // 0F 62
    Row::Unlisted, // 0F 63
    Row::Unlisted, // 0F 64
    Row::Unlisted, // 0F 65
    Row::Unlisted, // 0F 66
    Row::Unlisted, // 0F 67
    Row::Unlisted, // 0F 68
    Row::Unlisted, // 0F 69
    Row::Unlisted, // 0F 6A
    Row::Unlisted, // 0F 6B
    Row::Unlisted, // 0F 6C
    Row::Unlisted, // 0F 6D
    Row::Unlisted, // 0F 6E
    Row::Unlisted, // 0F 6F
    Row::Unlisted, // 0F 70
    Row::Unlisted, // 0F 71
    Row::Unlisted, // 0F 72
    Row::Unlisted, // 0F 73
    Row::Unlisted, // 0F 74
    Row::Unlisted, // 0F 75
    Row::Unlisted, // 0F 76
    Row::Unlisted, // 0F 77
    Row::Unlisted, // 0F 78
    Row::Unlisted, // 0F 79
    Row::Unlisted, // 0F 7A
    Row::Unlisted, // 0F 7B
    Row::Unlisted, // 0F 7C
    Row::Unlisted, // 0F 7D
    Row::Unlisted, // 0F 7E
    Row::Unlisted, // 0F 7F
    Row::JumpIfRel32, // 0F 80 JO
    Row::JumpIfRel32, // 0F 81 JNO
    Row::JumpIfRel32, // 0F 82 JB
    Row::JumpIfRel32, // 0F 83 JNB
    Row::JumpIfRel32, // 0F 84 JE
    Row::JumpIfRel32, // 0F 85 JNE
    Row::JumpIfRel32, // 0F 86 JBE
    Row::JumpIfRel32, // 0F 87 JNBE
    Row::JumpIfRel32, // 0F 88 JS
    Row::JumpIfRel32, // 0F 89 JNS
    Row::JumpIfRel32, // 0F 8A JP
    Row::JumpIfRel32, // 0F 8B JNP
    Row::JumpIfRel32, // 0F 8C JL
    Row::JumpIfRel32, // 0F 8D JNL
    Row::JumpIfRel32, // 0F 8E JLE
    Row::JumpIfRel32, // 0F 8F JNLE
    Row::Set, // 0F 90 SETO
    Row::Set, // 0F 91 SETNO
    Row::Set, // 0F 92 SETB
    Row::Set, // 0F 93 SETNB
    Row::Set, // 0F 94 SETE
    Row::Set, // 0F 95 SETNE
    Row::Set, // 0F 96 SETBE
    Row::Set, // 0F 97 SETNBE
    Row::Set, // 0F 98 SETS
    Row::Set, // 0F 99 SETNS
    Row::Set, // 0F 9A SETP
    Row::Set, // 0F 9B SETNP
    Row::Set, // 0F 9C SETL
    Row::Set, // 0F 9D SETNL
    Row::Set, // 0F 9E SETLE
    Row::Set, // 0F 9F SETNLE
    Row::Unlisted, // 0F A0
    Row::Unlisted, // 0F A1
    Row::Unlisted, // 0F A2
    Row::BitTest, // 0F A3 BT
    Row::ShldRmRegImm, // 0F A4 SHLD
    Row::ShldRmRegCl, // 0F A5 SHLD
    Row::Unlisted, // 0F A6
    Row::Unlisted, // 0F A7
    Row::Unlisted, // 0F A8
    Row::Unlisted, // 0F A9
    Row::Unlisted, // 0F AA
    Row::BitTest, // 0F AB BTS
    Row::ShrdRmRegImm, // 0F AC SHRD
    Row::ShrdRmRegCl, // 0F AD SHRD
    Row::Unlisted, // 0F AE
    Row::ImulLowRegRmReg, // 0F AF IMUL
    Row::Unlisted, // 0F B0
    Row::Unlisted, // 0F B1
    Row::Unlisted, // 0F B2
    Row::BitTest, // 0F B3 BTR
    Row::Unlisted, // 0F B4
    Row::Unlisted, // 0F B5
    Row::MovZeroByte, // 0F B6 MOVZX
    Row::MovZeroWord, // 0F B7 MOVZX
    Row::Unlisted, // 0F B8
    Row::Unlisted, // 0F B9
    Row::BitTestGroup, // 0F BA BT BTS BTR BTC
    Row::BitTest, // 0F BB BTC
    Row::Bsf, // 0F BC BSF
    Row::Bsr, // 0F BD BSR
    Row::MovSignByte, // 0F BE MOVSX
    Row::MovSignWord, // 0F BF MOVSX
    Row::Unlisted, // 0F C0
    Row::Unlisted, // 0F C1
    Row::Unlisted, // 0F C2
    Row::Unlisted, // 0F C3
    Row::Unlisted, // 0F C4
    Row::Unlisted, // 0F C5
    Row::Unlisted, // 0F C6
    Row::Unlisted, // 0F C7
    Row::Bswap, // 0F C8 BSWAP
    Row::Bswap, // 0F C9 BSWAP
    Row::Bswap, // 0F CA BSWAP
    Row::Bswap, // 0F CB BSWAP
    Row::Bswap, // 0F CC BSWAP
    Row::Bswap, // 0F CD BSWAP
    Row::Bswap, // 0F CE BSWAP
    Row::Bswap, // 0F CF BSWAP
    Row::Unlisted, // 0F D0
    Row::Unlisted, // 0F D1
    Row::Unlisted, // 0F D2
    Row::Unlisted, // 0F D3
    Row::Unlisted, // 0F D4
    Row::Unlisted, // 0F D5
    Row::Unlisted, // 0F D6
    Row::Unlisted, // 0F D7
    Row::Unlisted, // 0F D8
    Row::Unlisted, // 0F D9
    Row::Unlisted, // 0F DA
    Row::Unlisted, // 0F DB
    Row::Unlisted, // 0F DC
    Row::Unlisted, // 0F DD
    Row::Unlisted, // 0F DE
    Row::Unlisted, // 0F DF
    Row::Unlisted, // 0F E0
    Row::Unlisted, // 0F E1
    Row::Unlisted, // 0F E2
    Row::Unlisted, // 0F E3
    Row::Unlisted, // 0F E4
    Row::Unlisted, // 0F E5
    Row::Unlisted, // 0F E6
    Row::Unlisted, // 0F E7
    Row::Unlisted, // 0F E8
    Row::Unlisted, // 0F E9
    Row::Unlisted, // 0F EA
    Row::Unlisted, // 0F EB
    Row::Unlisted, // 0F EC
    Row::Unlisted, // 0F ED
    Row::Unlisted, // 0F EE
    Row::Unlisted, // 0F EF
    Row::Unlisted, // 0F F0
    Row::Unlisted, // 0F F1
    Row::Unlisted, // 0F F2
    Row::Unlisted, // 0F F3
    Row::Unlisted, // 0F F4
    Row::Unlisted, // 0F F5
    Row::Unlisted, // 0F F6
    Row::Unlisted, // 0F F7
    Row::Unlisted, // 0F F8
    Row::Unlisted, // 0F F9
    Row::Unlisted, // 0F FA
    Row::Unlisted, // 0F FB
    Row::Unlisted, // 0F FC
    Row::Unlisted, // 0F FD
    Row::Unlisted, // 0F FE
    Row::Unlisted, // 0F FF
];

/// The row of an opcode: 00 to FF alone, 100 to 1FF after 0F.
pub fn row(opcode: usize) -> Row
    ensures at { result ≡ row_at opcode }
    ensures row { number_of result ≡ row_of opcode }
{
    if opcode < 512 {
        ROWS[opcode]
    } else {
        Row::Unlisted
    }
}
