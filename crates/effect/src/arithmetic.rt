//! Operations that compute.
ghost use Rattle.std.specs.Prelude.{◌≡◌};
ghost use Rattle.machine.specs.Registers.{with_flags};
ghost use Rattle.product.specs.Multiply.{product_flags};
ghost use Rattle.effect.specs.Arithmetic as Op;
ghost use Rattle.effect.specs.Bits as Bit;
ghost use Rattle.effect.specs.Words as W;
ghost use Rattle.machine.specs.Answers.{SameAreas};
ghost use Rattle.effect.specs.Does.{Performs, Commits, got_of, got_as};
ghost use Rattle.effect.specs.Reckoned.{reckoned_as, settled_by, Comes};

use crate::stop::Stop;
use crate::words::{assign, value, write};
use arith::{Binary, Single};
use bits::{BitTest, DoubleShift, Scan};
use flags::Word;
use machine::memory::{Memory, Outside};
use machine::registers::{AH, EAX, EDX, Machine};
use plan::{Operand, Plan};
use product::{Parts, Product};
use sense::{Arithmetic, Bits};
use shift::Shift;
use width::Size;

/// What an operation computes: the flags, and a value where it is assigned.
#[derive(Clone, Copy)]
pub struct Reckoned {
    pub flags: Word,
    pub value: Option<u32>,
}

/// What is read of two operands, of which at most one lies in memory.
// 0 where none does, as in `words::fetch`.
#[inline(always)]
#[tactic(auto, unfolding(crate::specs::Does::got_of, crate::specs::Arithmetic::arithmetic_reads, crate::specs::Words::read_of, crate::specs::Words::read_or))]
fn fetch(p: &Plan, a: u32, memory: &Memory) -> Result<u32, Outside>
    ensures { got_of memory.now.constants.now memory.now.area.now (Op.arithmetic_reads p.now a) ≡ got_as result }
{
    match (p.source, p.destination) {
        (Operand::Memory, _) | (_, Operand::Memory) => memory.load(p.size, a),
        _ => Ok(0),
    }
}

/// 003 "ADD", "OR", "ADC", "SBB", "AND", "SUB", "XOR", "CMP": DEST op SRC.
#[inline(always)]
#[tactic(auto, unfolding(crate::specs::Arithmetic::binary, crate::specs::Arithmetic::assigns))]
fn binary(op: Binary, w: Size, a: u32, b: u32, f: &Word) -> Reckoned
    ensures { result ≡ reckoned_as (Op.binary op w a b f.now) }
{
    let r = arith::binary_worked(op, w, a, b, f.bits());
    Reckoned {
        flags: Word::of_bits(r.word),
        value: match op {
            Binary::Cmp => None,
            Binary::Add
            | Binary::Or
            | Binary::Adc
            | Binary::Sbb
            | Binary::And
            | Binary::Sub
            | Binary::Xor => Some(r.value),
        },
    }
}

/// 003 "TEST": the flags of DEST AND SRC.
#[inline(always)]
#[tactic(auto, using(crate::proofs::Reckoned::tested))]
fn test(w: Size, a: u32, b: u32, f: &Word) -> Reckoned
    ensures { result ≡ reckoned_as (Op.test w a b f.now) }
{
    let r = arith::binary_worked(Binary::And, w, a, b, f.bits());
    Reckoned {
        flags: Word::of_bits(r.word),
        value: None,
    }
}

/// 003 "INC", "DEC", "NOT", "NEG": op DEST.
#[inline(always)]
#[tactic(auto, unfolding(crate::specs::Arithmetic::single))]
fn single(op: Single, w: Size, a: u32, f: &Word) -> Reckoned
    ensures { result ≡ reckoned_as (Op.single op w a f.now) }
{
    let r = arith::single_worked(op, w, a, f.bits());
    Reckoned {
        flags: Word::of_bits(r.word),
        value: Some(r.value),
    }
}

/// 003 "RCL/RCR/ROL/ROR", "SAL/SAR/SHL/SHR": DEST moved by the count.
#[tactic(auto, unfolding(crate::specs::Arithmetic::shift))]
fn shift(op: Shift, w: Size, a: u32, count: u32, f: &Word) -> Reckoned
    ensures { result ≡ reckoned_as (Op.shift op w a count f.now) }
{
    let f = f.unpack();
    Reckoned {
        flags: Word::pack(shift::shift_flags(op, w, a, count, f)),
        value: Some(shift::shift_value(op, w, a, count, f.cf)),
    }
}

/// 003 "IMUL", two and three operands: the low half.
#[tactic(auto, unfolding(crate::specs::Arithmetic::multiplied_low))]
fn multiplied_low(w: Size, a: u32, b: u32, f: &Word) -> Reckoned
    ensures { result ≡ reckoned_as (Op.multiplied_low w a b f.now) }
{
    let g = product::product_flags(product::imul_spills(w, a, b), f.unpack());
    Reckoned {
        flags: Word::pack(g),
        value: Some(product::imul(w, a, b).low),
    }
}

/// 003 "BT", "BTS", "BTR", "BTC": CF ← the bit of DEST at the offset SRC, and that bit is changed.
#[tactic(auto, unfolding(crate::specs::Bits::bit_tested, crate::specs::Bits::changes))]
fn bit_tested(op: BitTest, w: Size, v: u32, offset: u32, f: &Word) -> Reckoned
    ensures { result ≡ reckoned_as (Bit.bit_tested op w v offset f.now) }
{
    Reckoned {
        flags: Word::pack(bits::tests::test_flags(w, v, offset, f.unpack())),
        value: match op {
            BitTest::Bt => None,
            BitTest::Bts | BitTest::Btr | BitTest::Btc => Some(bits::tests::test_value(
                op, w, v, offset,
            )),
        },
    }
}

/// 003 "BSF", "BSR": DEST ← the index of SRC's lowest or highest one; of 0 DEST keeps its value.
#[tactic(auto, unfolding(crate::specs::Bits::scanned))]
fn scanned(op: Scan, v: u32, f: &Word) -> Reckoned
    ensures { result ≡ reckoned_as (Bit.scanned op v f.now) }
{
    Reckoned {
        flags: Word::pack(bits::scans::scan_flags(v, f.unpack())),
        value: if v == 0 {
            None
        } else {
            Some(bits::scans::scan_value(op, v))
        },
    }
}

/// 003 "SHLD", "SHRD": DEST moved by the count, with SRC behind it.
#[tactic(auto, unfolding(crate::specs::Bits::double_shifted))]
fn double_shifted(op: DoubleShift, w: Size, d: u32, s: u32, count: u32, f: &Word) -> Reckoned
    ensures { result ≡ reckoned_as (Bit.double_shifted op w d s count f.now) }
{
    Reckoned {
        flags: Word::pack(bits::doubles::double_flags(op, w, d, s, count, f.unpack())),
        value: Some(bits::doubles::double_value(op, w, d, s, count)),
    }
}

/// What an operation on bits computes.
#[tactic(auto, unfolding(crate::specs::Bits::bits_computed))]
fn bits_computed(op: Bits, w: Size, d: u32, s: u32, count: u32, f: &Word) -> Reckoned
    ensures { result ≡ reckoned_as (Bit.bits_computed op w d s count f.now) }
{
    match op {
        Bits::Test(o) => bit_tested(o, w, d, s, f),
        Bits::Scan(o) => scanned(o, s, f),
        Bits::Double(o) => double_shifted(o, w, d, s, count, f),
    }
}

/// DEST ← the value, where one is assigned, and the flags.
#[inline(always)]
#[tactic(auto, using(crate::proofs::Assign::done_assign, crate::proofs::Assign::done_becomes), unfolding(crate::specs::Reckoned::settled_by, crate::specs::Reckoned::settled_with, crate::specs::Words::onward))]
fn settle(m: &mut Machine, p: &Plan, a: u32, c: Reckoned, memory: &mut Memory) -> Result<(), Stop>
    ensures does { Commits (settled_by c m.old p.now a) m.old memory.old result m.new memory.new }
    ensures same_areas { SameAreas memory.old memory.new }
{
    if let Some(v) = c.value {
        write(p.destination, p.size, a, v, memory).map_err(Stop::Write)?;
        m.set_eip(p.next);
        m.set_flags(c.flags);
        assign(m, p.destination, p.size, v);
    } else {
        m.set_eip(p.next);
        m.set_flags(c.flags);
    }
    Ok(())
}

/// The upper half's register: AH beside AL, DX beside AX, EDX beside EAX.
#[inline(always)]
#[tactic(auto, unfolding(crate::specs::Arithmetic::upper))]
fn upper(w: Size) -> u32
    ensures { result ≡ Op.upper w }
{
    match w {
        Size::Byte => AH,
        Size::Word | Size::Dword => EDX,
    }
}

/// The accumulator and the upper half's register assigned, and the flags, and on.
#[tactic(auto, unfolding(crate::specs::Arithmetic::doubled, crate::specs::Words::onward))]
fn doubled(m: &mut Machine, p: &Plan, flags: Word, low: u32, high: u32)
    ensures { m.new ≡ Op.doubled (with_flags (W.onward m.old p.now) flags) p.now.size low high }
{
    m.set_eip(p.next);
    m.set_flags(flags);
    m.set_part(p.size, EAX, low);
    m.set_part(p.size, upper(p.size), high);
}

/// 003 "MUL", "IMUL" of one operand: the upper half and the accumulator ← the product n, whose flags tell whether it spills.
#[tactic(auto, unfolding(crate::specs::Words::onward))]
fn multiplied(m: &mut Machine, p: &Plan, n: Product, spills: bool)
    ensures { m.new ≡ Op.doubled (with_flags (W.onward m.old p.now) (product_flags spills m.old.flags)) p.now.size n.low n.high }
{
    let f = product::product_flags(spills, m.flags().unpack());
    doubled(m, p, Word::pack(f), n.low, n.high);
}

/// 003 "DIV", "IDIV": quotient to the accumulator, remainder to the upper half's register; the status flags are undefined.
#[tactic(auto, unfolding(crate::specs::Arithmetic::quotient))]
fn divided(m: &mut Machine, p: &Plan, d: Option<Parts>) -> Result<(), Stop>
    ensures { Comes (Op.quotient d m.old p.now) m.old result m.new }
{
    let d = d.ok_or(Stop::Divide)?;
    let f = flags::all_undefined(m.flags().unpack());
    doubled(m, p, Word::pack(f), d.quotient, d.remainder);
    Ok(())
}

/// Where the operand in memory is: of a string of bits the unit that holds the bit.
#[inline(always)]
#[tactic(auto, unfolding(crate::specs::Arithmetic::arithmetic_address, crate::specs::Bits::unit_of))]
pub fn address(m: &Machine, op: Arithmetic, p: &Plan, a: u32) -> u32
    ensures { result ≡ Op.arithmetic_address op m.now p.now a }
{
    match op {
        Arithmetic::BitString(_) => bits::tests::unit_address(
            p.size,
            a,
            value(m, p.source, 0, p.size),
        ),
        Arithmetic::Binary(_)
        | Arithmetic::Test
        | Arithmetic::Single(_)
        | Arithmetic::Shift(_)
        | Arithmetic::Mul
        | Arithmetic::Imul
        | Arithmetic::ImulLow
        | Arithmetic::Div
        | Arithmetic::Idiv
        | Arithmetic::Bits(_) => a,
    }
}

/// What the operation does, where a is the address that `address` gives.
#[tactic(auto, using(crate::proofs::Reckoned::done_settled, crate::proofs::Assign::done_becomes, crate::proofs::Assign::done_faults), unfolding(crate::specs::Does::did, crate::specs::Arithmetic::arithmetic_effect, crate::specs::Arithmetic::multiplied, crate::specs::Arithmetic::multiplied_signed, crate::specs::Arithmetic::divided, crate::specs::Arithmetic::divided_signed))]
pub fn arithmetic(
    m: &mut Machine,
    op: Arithmetic,
    p: &Plan,
    a: u32,
    memory: &mut Memory,
) -> Result<(), Stop>
    ensures does { Performs (Op.arithmetic_reads p.now a) (λ r s. Op.arithmetic_effect op m.old p.now a r) m.old memory.old result m.new memory.new }
    ensures same_areas { SameAreas memory.old memory.new }
{
    let w = p.size;
    let r = fetch(p, a, memory).map_err(Stop::Read)?;
    let x = value(m, p.destination, r, w);
    let y = value(m, p.source, r, w);
    let c = match op {
        Arithmetic::Binary(o) => binary(o, w, x, y, m.flags()),
        Arithmetic::Test => test(w, x, y, m.flags()),
        Arithmetic::Single(o) => single(o, w, x, m.flags()),
        Arithmetic::Shift(o) => shift(o, w, x, value(m, p.source, r, Size::Byte), m.flags()),
        Arithmetic::Mul => {
            let a = m.part(w, EAX);
            multiplied(m, p, product::mul(w, a, x), product::mul_spills(w, a, x));
            return Ok(());
        }
        Arithmetic::Imul => {
            let a = m.part(w, EAX);
            multiplied(m, p, product::imul(w, a, x), product::imul_spills(w, a, x));
            return Ok(());
        }
        Arithmetic::ImulLow => multiplied_low(w, y, value(m, p.other, r, w), m.flags()),
        Arithmetic::Div => {
            let (high, low) = (m.part(w, upper(w)), m.part(w, EAX));
            return divided(m, p, product::div(w, high, low, x));
        }
        Arithmetic::Idiv => {
            let (high, low) = (m.part(w, upper(w)), m.part(w, EAX));
            return divided(m, p, product::idiv(w, high, low, x));
        }
        Arithmetic::Bits(o) => bits_computed(
            o,
            w,
            x,
            y,
            value(m, p.other, r, Size::Byte),
            m.flags(),
        ),
        Arithmetic::BitString(o) => bit_tested(o, w, x, y, m.flags()),
    };
    settle(m, p, a, c, memory)
}
