//! Operations on singles.
ghost use Rattle.std.specs.Prelude.{◌≡◌};
ghost use Rattle.effect.specs.Singles as S;
ghost use Rattle.effect.specs.Words as W;
ghost use Rattle.machine.specs.Answers.{SameAreas};
ghost use Rattle.effect.specs.Does.{Performs, Commits};

use crate::stop::Stop;
use crate::words::{fetch, write};
use flags::Word;
use machine::memory::Memory;
use machine::registers::Machine;
use plan::{Operand, Plan};
use scalar::Compute;
use width::Size;

/// An operand's single, where r is what was read.
// Apart from `words`: a single is a whole register of another kind, and has no size.
#[inline(always)]
#[tactic(auto, unfolding(crate::specs::Singles::single_value))]
fn value(m: &Machine, o: Operand, r: u32) -> u32
    ensures { result ≡ S.single_value o m.now r }
{
    match o {
        Operand::Register(i) => m.single(i),
        Operand::Memory => r,
        Operand::Number(n) => n,
    }
}

/// v assigned to the destination, and on.
// Apart from `moves::given`, as `value` is from that of `words`.
#[tactic(auto, unfolding(crate::specs::Does::done, crate::specs::Does::wrote, crate::specs::Does::written, crate::specs::Singles::assign_single, crate::specs::Words::onward, crate::specs::Words::writes, crate::specs::Words::sets, crate::specs::Words::becomes, crate::specs::Performing::committed, crate::specs::Performing::stored))]
fn given(m: &mut Machine, p: &Plan, a: u32, v: u32, memory: &mut Memory) -> Result<(), Stop>
    ensures does { Commits (S.assign_single p.now.destination a (W.onward m.old p.now) v) m.old memory.old result m.new memory.new }
    ensures same_areas { SameAreas memory.old memory.new }
{
    match p.destination {
        Operand::Register(i) => {
            m.set_eip(p.next);
            m.set_single(i, v);
        }
        Operand::Memory => {
            memory.store(Size::Dword, a, v).map_err(Stop::Write)?;
            m.set_eip(p.next);
        }
        Operand::Number(_) => m.set_eip(p.next),
    }
    Ok(())
}

/// MOVSS.
#[tactic(auto, unfolding(crate::specs::Does::did, crate::specs::Singles::single_reads, crate::specs::Singles::single_moved))]
pub fn move_single(m: &mut Machine, p: &Plan, a: u32, memory: &mut Memory) -> Result<(), Stop>
    ensures does { Performs (S.single_reads p.now a) (λ r s. S.single_moved m.old p.now a r) m.old memory.old result m.new memory.new }
    ensures same_areas { SameAreas memory.old memory.new }
{
    let r = fetch(p.source, Size::Dword, a, memory).map_err(Stop::Read)?;
    given(m, p, a, value(m, p.source, r), memory)
}

/// ADDSS MULSS SUBSS MINSS DIVSS MAXSS.
#[tactic(auto, unfolding(crate::specs::Does::did, crate::specs::Singles::single_reads, crate::specs::Singles::single_computed))]
pub fn compute_single(
    m: &mut Machine,
    op: Compute,
    p: &Plan,
    a: u32,
    memory: &mut Memory,
) -> Result<(), Stop>
    ensures does { Performs (S.single_reads p.now a) (λ r s. S.single_computed op m.old p.now a r) m.old memory.old result m.new memory.new }
    ensures same_areas { SameAreas memory.old memory.new }
{
    let r = fetch(p.source, Size::Dword, a, memory).map_err(Stop::Read)?;
    let x = value(m, p.destination, r);
    let y = value(m, p.source, r);
    given(m, p, a, scalar::computed(op, x, y), memory)
}

/// COMISS.
#[tactic(auto, using(crate::proofs::Assign::done_becomes), unfolding(crate::specs::Does::did, crate::specs::Singles::single_reads, crate::specs::Singles::single_compared, crate::specs::Words::onward))]
pub fn compare_single(m: &mut Machine, p: &Plan, a: u32, memory: &Memory) -> Result<(), Stop>
    ensures { Performs (S.single_reads p.now a) (λ r s. S.single_compared m.old p.now r) m.old memory.now result m.new memory.now }
{
    let r = fetch(p.source, Size::Dword, a, memory).map_err(Stop::Read)?;
    let x = value(m, p.destination, r);
    let y = value(m, p.source, r);
    let f = Word::of_bits(scalar::compared(x, y, m.flags().bits()));
    m.set_eip(p.next);
    m.set_flags(f);
    Ok(())
}
