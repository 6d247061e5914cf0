//! Which operation an opcode names: by the reg field in a group, by the opcode's own bits elsewhere.
ghost use Rattle.std.specs.Prelude.{◌≡◌, slice_index_or};
ghost use Rattle.sense.specs.Operations.{binary_at, shift_at, product_at, inc_dec_at, last_at, bit_test_at, compute_at, operation_of};

use crate::{Arithmetic, Bits, Branch, Flagging, Kind, Move, Operation, Stack, Strings};
use arith::{Binary, Single};
use bits::{BitTest, DoubleShift, Scan};
use scalar::Compute;
use shift::Shift;
use width::Size;

/// The entry of a table at a number; past the table's end, the last operation, which the table leaves out.
fn at_or<T: Copy>(table: &[T], number: u32, last: T) -> T
    ensures { result ≡ slice_index_or table.now number last }
{
    table.get(number as usize).copied().unwrap_or(last)
}

/// The operations of 00 to 3F, 80, 81 and 83 but the last.
static BINARY: [Binary; 7] = [
    Binary::Add,
    Binary::Or,
    Binary::Adc,
    Binary::Sbb,
    Binary::And,
    Binary::Sub,
    Binary::Xor,
];

/// By three bits of the opcode, or the reg field.
#[tactic(auto, unfolding(crate::specs::Operations::binary_at))]
fn binary_at(number: u32) -> Binary
    ensures { result ≡ binary_at number }
{
    at_or(&BINARY, number, Binary::Cmp)
}

/// The operations of C0, C1 and D0 to D3 but the last; no instruction has 6.
static SHIFTS: [Shift; 6] = [
    Shift::Rol,
    Shift::Ror,
    Shift::Rcl,
    Shift::Rcr,
    Shift::Shl,
    Shift::Shr,
];

/// By the reg field.
#[tactic(auto, unfolding(crate::specs::Operations::shift_at))]
fn shift_at(number: u32) -> Shift
    ensures { result ≡ shift_at number }
{
    at_or(&SHIFTS, number, Shift::Sar)
}

/// The operations of F6 and F7 but the last; no instruction has 1.
static PRODUCTS: [Arithmetic; 7] = [
    Arithmetic::Test,
    Arithmetic::Test,
    Arithmetic::Single(Single::Not),
    Arithmetic::Single(Single::Neg),
    Arithmetic::Mul,
    Arithmetic::Imul,
    Arithmetic::Div,
];

/// F6 and F7, by the reg field.
#[tactic(auto, unfolding(crate::specs::Operations::product_at))]
fn product_at(number: u32) -> Arithmetic
    ensures { result ≡ product_at number }
{
    at_or(&PRODUCTS, number, Arithmetic::Idiv)
}

/// FE, by the reg field.
#[tactic(auto, unfolding(crate::specs::Operations::inc_dec_at))]
fn inc_dec_at(number: u32) -> Arithmetic
    ensures { result ≡ inc_dec_at number }
{
    // A table of one entry would be no plainer.
    match number {
        0 => Arithmetic::Single(Single::Inc),
        _ => Arithmetic::Single(Single::Dec),
    }
}

/// The operations of FF but the last; no instruction has 3, 5 or 7.
static LAST: [Operation; 6] = [
    Operation::Arithmetic(Arithmetic::Single(Single::Inc)),
    Operation::Arithmetic(Arithmetic::Single(Single::Dec)),
    Operation::Stack(Stack::CallTo),
    Operation::Stack(Stack::CallTo),
    Operation::Branch(Branch::JumpTo),
    Operation::Branch(Branch::JumpTo),
];

/// FF, by the reg field.
#[tactic(auto, unfolding(crate::specs::Operations::last_at))]
fn last_at(number: u32) -> Operation
    ensures { result ≡ last_at number }
{
    at_or(&LAST, number, Operation::Stack(Stack::Push))
}

/// The bit tests but the last.
static BIT_TESTS: [BitTest; 3] = [BitTest::Bt, BitTest::Bts, BitTest::Btr];

/// By two bits of the opcode, or of the reg field.
#[tactic(auto, unfolding(crate::specs::Operations::bit_test_at))]
fn bit_test_at(number: u32) -> BitTest
    ensures { result ≡ bit_test_at number }
{
    at_or(&BIT_TESTS, number, BitTest::Btc)
}

/// The operations of F3 0F 58 to F3 0F 5F but the last; no instruction has 2 or 3.
static COMPUTES: [Compute; 7] = [
    Compute::Add,
    Compute::Mul,
    Compute::Mul,
    Compute::Mul,
    Compute::Sub,
    Compute::Min,
    Compute::Div,
];

/// By the opcode's last three bits.
#[tactic(auto, unfolding(crate::specs::Operations::compute_at))]
fn compute_at(number: u32) -> Compute
    ensures { result ≡ compute_at number }
{
    at_or(&COMPUTES, number, Compute::Max)
}

/// The operation of a kind, with the opcode and the ModR/M byte's reg field.
#[tactic(auto, unfolding(crate::specs::Operations::operation_of))]
pub fn operation(kind: Kind, opcode: usize, field: u32) -> Operation
    ensures { result ≡ operation_of kind opcode field }
{
    match kind {
        Kind::Alu => Operation::Arithmetic(Arithmetic::Binary(binary_at((opcode / 8 % 8) as u32))),
        Kind::AluGroup => Operation::Arithmetic(Arithmetic::Binary(binary_at(field))),
        Kind::Test => Operation::Arithmetic(Arithmetic::Test),
        Kind::Inc => Operation::Arithmetic(Arithmetic::Single(Single::Inc)),
        Kind::Dec => Operation::Arithmetic(Arithmetic::Single(Single::Dec)),
        Kind::ShiftGroup => Operation::Arithmetic(Arithmetic::Shift(shift_at(field))),
        Kind::ProductGroup => Operation::Arithmetic(product_at(field)),
        Kind::IncDecGroup => Operation::Arithmetic(inc_dec_at(field)),
        Kind::LastGroup => last_at(field),
        Kind::ImulLow => Operation::Arithmetic(Arithmetic::ImulLow),
        Kind::Mov => Operation::Move(Move::Mov),
        Kind::MovZeroByte => Operation::Move(Move::MovZero(Size::Byte)),
        Kind::MovZeroWord => Operation::Move(Move::MovZero(Size::Word)),
        Kind::MovSignByte => Operation::Move(Move::MovSign(Size::Byte)),
        Kind::MovSignWord => Operation::Move(Move::MovSign(Size::Word)),
        Kind::Lea => Operation::Move(Move::Lea),
        Kind::Xchg => Operation::Move(Move::Xchg),
        Kind::Convert => Operation::Move(Move::Convert),
        Kind::Spread => Operation::Move(Move::Spread),
        Kind::Bswap => Operation::Move(Move::Bswap),
        Kind::Set => Operation::Move(Move::Set((opcode % 16) as u32)),
        Kind::Lahf => Operation::Move(Move::Lahf),
        Kind::Sahf => Operation::Move(Move::Sahf),
        Kind::Cmc => Operation::Flagging(Flagging::Cmc),
        Kind::Clc => Operation::Flagging(Flagging::Clc),
        Kind::Stc => Operation::Flagging(Flagging::Stc),
        Kind::Cld => Operation::Flagging(Flagging::Cld),
        Kind::Std => Operation::Flagging(Flagging::Std),
        Kind::Push => Operation::Stack(Stack::Push),
        Kind::Pop => Operation::Stack(Stack::Pop),
        Kind::Leave => Operation::Stack(Stack::Leave),
        Kind::Call => Operation::Stack(Stack::Call),
        Kind::Return => Operation::Stack(Stack::Return),
        Kind::Jump => Operation::Branch(Branch::Jump),
        Kind::JumpIf => Operation::Branch(Branch::JumpIf((opcode % 16) as u32)),
        Kind::Loopne => Operation::Branch(Branch::Loopne),
        Kind::Loope => Operation::Branch(Branch::Loope),
        Kind::Loop => Operation::Branch(Branch::Loop),
        Kind::Jecxz => Operation::Branch(Branch::Jecxz),
        Kind::Movs => Operation::Strings(Strings::Movs),
        Kind::Cmps => Operation::Strings(Strings::Cmps),
        Kind::Stos => Operation::Strings(Strings::Stos),
        Kind::Lods => Operation::Strings(Strings::Lods),
        Kind::Scas => Operation::Strings(Strings::Scas),
        Kind::MovIf => Operation::Move(Move::MovIf((opcode % 16) as u32)),
        Kind::BitTest => {
            Operation::Arithmetic(Arithmetic::BitString(bit_test_at((opcode / 8 % 4) as u32)))
        }
        Kind::BitTestGroup => {
            Operation::Arithmetic(Arithmetic::Bits(Bits::Test(bit_test_at(field % 4))))
        }
        Kind::Bsf => Operation::Arithmetic(Arithmetic::Bits(Bits::Scan(Scan::Bsf))),
        Kind::Bsr => Operation::Arithmetic(Arithmetic::Bits(Bits::Scan(Scan::Bsr))),
        Kind::Shld => Operation::Arithmetic(Arithmetic::Bits(Bits::Double(DoubleShift::Shld))),
        Kind::Shrd => Operation::Arithmetic(Arithmetic::Bits(Bits::Double(DoubleShift::Shrd))),
        Kind::MoveSingle => Operation::MoveSingle,
        Kind::ComputeSingle => Operation::ComputeSingle(compute_at((opcode % 8) as u32)),
        Kind::CompareSingle => Operation::CompareSingle,
    }
}
