//! The plan of a step: which operation, at which size, on which operands, and where it goes on.
#![tactic(auto)]

ghost use Rattle.std.specs.Prelude.{◌≡◌, ◌%◌, ◌^◌};
ghost use Rattle.plan.specs.Addresses.{scaled_index, base_register, address_base, effective_address};
ghost use Rattle.plan.specs.Plans.{size_of, operand_of, is_offset, offset_alone, address_in, next_of, plan_for, leads, plan_of};

use grammar::instruction::Decoded;
use grammar::relative::relative_of;
use grammar::rule::Repeat;
use machine::registers::{EAX, ECX, Machine};
use sense::operations::operation;
use sense::table::sense;
use sense::{Operation, Place, Sense};
use width::Size;

/// An operand: a part of a register, the memory at the effective address, or a number.
#[derive(Clone, Copy, Debug, PartialEq, Eq)]
pub enum Operand {
    Register(u32),
    Memory,
    Number(u32),
}

/// What an effective address is computed from.
#[derive(Clone, Copy, Debug, PartialEq, Eq)]
pub struct Address {
    pub modrm: u8,
    pub sib: u8,
    pub displacement: u32,
}

/// What one step does, of its instruction and place alone.
#[derive(Clone, Copy)]
pub struct Plan {
    pub operation: Operation,
    pub size: Size,
    pub destination: Operand,
    pub source: Operand,
    pub other: Operand,
    pub repeat: Repeat,
    /// The address of the next instruction.
    pub next: u32,
    /// The address that a displacement leads to.
    pub target: u32,
    /// Where the operand in memory is.
    pub address: Address,
}

/// A SIB byte's index modulo 2^32: the register times 1, 2, 4 or 8; index 4 is none.
#[tactic(auto, using(crate::proofs::Indexes::no_index, crate::proofs::Indexes::shifted))]
fn scaled_index(m: &Machine, sib: u8) -> u32
    ensures { result ≡ scaled_index m.now sib % 2 ^ 32 }
{
    let index = u32::from(sib / 8 % 8);
    if index == 4 {
        return 0;
    }
    m.register(index) << (sib / 64)
}

/// A base register by its number; with Mod 0 number 5 is none.
#[tactic(auto, unfolding(crate::specs::Addresses::base_register))]
fn base_register(m: &Machine, modrm: u8, i: u32) -> u32
    ensures { result ≡ base_register m.now modrm i }
{
    if modrm / 64 == 0 && i == 5 {
        0
    } else {
        m.register(i)
    }
}

/// What the displacement is added to, modulo 2^32: with R/M 4 what the SIB byte says, else a base register.
#[tactic(auto, unfolding(crate::specs::Addresses::address_base))]
fn address_base(m: &Machine, modrm: u8, sib: u8) -> u32
    ensures { result ≡ address_base m.now modrm sib % 2 ^ 32 }
{
    let rm = u32::from(modrm % 8);
    if rm == 4 {
        let base = base_register(m, modrm, u32::from(sib % 8));
        return base.wrapping_add(scaled_index(m, sib));
    }
    base_register(m, modrm, rm)
}

/// The effective address, from the registers before the instruction.
#[tactic(auto, unfolding(crate::specs::Addresses::effective_address, width::specs::Numbers::rest, width::specs::Numbers::residue, width::specs::Sizes::modulus, width::specs::Sizes::bits))]
pub fn effective_address(m: &Machine, a: Address) -> u32
    ensures { result ≡ effective_address m.now a }
{
    address_base(m, a.modrm, a.sib).wrapping_add(a.displacement)
}

/// Bytes; else words under 66, and doublewords without.
#[tactic(auto, unfolding(crate::specs::Plans::size_of))]
pub fn size_of(byte: bool, narrow: bool) -> Size
    ensures { result ≡ size_of byte narrow }
{
    if byte {
        Size::Byte
    } else if narrow {
        Size::Word
    } else {
        Size::Dword
    }
}

/// The operand at a place.
#[tactic(auto, unfolding(crate::specs::Plans::operand_of))]
pub fn operand_at(place: Place, d: Decoded, w: Size) -> Operand
    ensures { result ≡ operand_of place d w }
{
    match place {
        // 0, as `operand_of` in specs/Plans.antt has it.
        Place::Absent => Operand::Number(0),
        Place::Rm => {
            if d.modrm / 64 == 3 {
                Operand::Register(u32::from(d.modrm % 8))
            } else {
                Operand::Memory
            }
        }
        Place::Reg => Operand::Register(u32::from(d.modrm / 8 % 8)),
        Place::Accumulator => Operand::Register(EAX),
        Place::OpcodeRegister => Operand::Register((d.opcode % 8) as u32),
        Place::Immediate => Operand::Number(d.immediate),
        Place::SignedImmediate => Operand::Number(Size::Byte.sign_extended(w, d.immediate)),
        Place::Offset => Operand::Memory,
        Place::One => Operand::Number(1),
        Place::Cl => Operand::Register(ECX),
    }
}

/// The immediate as a displacement alone: Mod 0 and R/M 5.
// No SIB byte is looked at with R/M 5: 0, as `offset_alone` in specs/Plans.antt has it.
#[tactic(auto, unfolding(crate::specs::Plans::offset_alone))]
fn offset_alone(immediate: u32) -> Address
    ensures { result ≡ offset_alone immediate }
{
    Address {
        modrm: 5,
        sib: 0,
        displacement: immediate,
    }
}

/// Whether a place is memory at an offset, the immediate.
#[tactic(auto, unfolding(crate::specs::Plans::is_offset))]
fn is_offset(place: Place) -> bool
    ensures { result ≡ is_offset place }
{
    matches!(place, Place::Offset)
}

/// What the effective address is computed from: the offset alone, as a displacement; else the instruction's ModR/M, SIB and displacement.
// Field by field: of the eight an address needs these three.
#[tactic(auto, unfolding(crate::specs::Plans::address_in))]
fn address_in(s: Sense, d: Decoded) -> Address
    ensures { result ≡ address_in s d }
{
    if is_offset(s.destination) || is_offset(s.source) {
        return offset_alone(d.immediate);
    }
    Address {
        modrm: d.modrm,
        sib: d.sib,
        displacement: d.displacement,
    }
}

/// The address of the next instruction.
#[tactic(auto, unfolding(crate::specs::Plans::next_of, width::specs::Numbers::rest, width::specs::Numbers::residue, width::specs::Sizes::modulus, width::specs::Sizes::bits))]
pub fn next_of(eip: u32, d: Decoded) -> u32
    ensures { result ≡ next_of eip d }
{
    eip.wrapping_add((d.length % 0x1_0000_0000) as u32)
}

/// The plan, from what the opcode means, its operation and its size.
#[tactic(auto, unfolding(crate::specs::Plans::plan_for))]
pub fn plan_for(eip: u32, d: Decoded, s: Sense, operation: Operation, w: Size, target: u32) -> Plan
    ensures { result ≡ plan_for eip d s operation w target }
{
    Plan {
        operation,
        size: w,
        destination: operand_at(s.destination, d, w),
        source: operand_at(s.source, d, w),
        other: operand_at(s.other, d, w),
        repeat: d.repeat,
        next: next_of(eip, d),
        target,
        address: address_in(s, d),
    }
}

/// Where a displacement leads from the next instruction; with none, on.
#[tactic(auto, unfolding(crate::specs::Plans::leads, width::specs::Numbers::rest, width::specs::Numbers::residue, width::specs::Sizes::modulus, width::specs::Sizes::bits))]
fn lead(relative: Option<u32>, next: u32) -> u32
    ensures { result ≡ leads relative next }
{
    match relative {
        None => next,
        Some(displacement) => next.wrapping_add(displacement),
    }
}

/// The plan of a decoded instruction at an address.
#[tactic(auto, unfolding(crate::specs::Plans::plan_of))]
pub fn plan_of(eip: u32, d: Decoded) -> Plan
    ensures { result ≡ plan_of eip d }
{
    let s = sense(d.opcode);
    let operation = operation(s.kind, d.opcode, u32::from(d.modrm / 8 % 8));
    let target = lead(relative_of(d), next_of(eip, d));
    plan_for(eip, d, s, operation, size_of(s.byte, d.narrow), target)
}
