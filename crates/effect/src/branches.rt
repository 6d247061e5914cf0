//! Jumps and loops.
ghost use Rattle.std.specs.Prelude.{◌≡◌, not, ◌&&◌, ◌==◌, if◌then◌else◌};
ghost use Rattle.machine.specs.Registers.{with_eip};
ghost use Rattle.effect.specs.Branches as B;
ghost use Rattle.effect.specs.Words as W;
ghost use Rattle.effect.specs.Does.{Performs};

use crate::stop::Stop;
use crate::words::{fetch, value};
use machine::memory::Memory;
use machine::registers::{ECX, Machine};
use plan::Plan;
use sense::Branch;

/// ECX less 1.
#[inline(always)]
#[tactic(auto, unfolding(crate::specs::Branches::counted, width::specs::Numbers::rest, width::specs::Numbers::residue, width::specs::Sizes::modulus, width::specs::Sizes::bits))]
pub fn counted(m: &Machine) -> u32
    ensures { result ≡ B.counted m.now }
{
    m.register(ECX).wrapping_sub(1)
}

/// To the target if the test holds, else on.
#[inline(always)]
#[tactic(auto, unfolding(crate::specs::Branches::branched))]
fn branch_if(m: &mut Machine, taken: bool, p: &Plan)
    ensures { m.new ≡ B.branched taken m.old p.now }
{
    m.set_eip(if taken { p.target } else { p.next });
}

/// 003 "LOOP/LOOPcc": ECX ← ECX - 1; to the target if ECX isn't 0 and the condition holds.
#[tactic(auto, unfolding(crate::specs::Branches::looped))]
fn looped(m: &mut Machine, holds: bool, p: &Plan)
    ensures { B.looped holds m.old p.now ≡ W.becomes m.new }
{
    let left = counted(m);
    m.set_register(ECX, left);
    branch_if(m, left != 0 && holds, p);
}

/// What the operation does; a is the effective address.
#[tactic(auto, unfolding(crate::specs::Does::did, crate::specs::Does::done, crate::specs::Does::got_of, crate::specs::Branches::branch_reads, crate::specs::Branches::branch_effect, crate::specs::Words::becomes, crate::specs::Performing::committed))]
pub fn branch(m: &mut Machine, op: Branch, p: &Plan, a: u32, memory: &Memory) -> Result<(), Stop>
    ensures { Performs (B.branch_reads op p.now a) (λ r s. B.branch_effect op m.old p.now r) m.old memory.now result m.new memory.now }
{
    match op {
        Branch::Jump => m.set_eip(p.target),
        Branch::JumpTo => {
            let r = fetch(p.source, p.size, a, memory).map_err(Stop::Read)?;
            m.set_eip(value(m, p.source, r, p.size));
        }
        Branch::JumpIf(n) => branch_if(m, flags::meets(n, m.flags().unpack()), p),
        Branch::Loopne => looped(m, !m.flags().unpack().zf, p),
        Branch::Loope => looped(m, m.flags().unpack().zf, p),
        Branch::Loop => looped(m, true, p),
        Branch::Jecxz => branch_if(m, m.register(ECX) == 0, p),
    }
    Ok(())
}
