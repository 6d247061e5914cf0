//! Operations on the stack.
ghost use Rattle.std.specs.Prelude.{◌≡◌, ◌+◌, pos};
ghost use Rattle.width.specs.Numbers.{rest};
ghost use Rattle.machine.specs.Registers.{with_eip};
ghost use Rattle.effect.specs.Stacks as S;
ghost use Rattle.effect.specs.Words as W;
ghost use Rattle.machine.specs.Answers.{SameAreas};
ghost use Rattle.effect.specs.Does.{Performs, Commits};

use crate::stop::Stop;
use crate::words::{assign, fetch, value, write};
use machine::memory::Memory;
use machine::registers::{EBP, ESP, Machine};
use plan::Plan;
use sense::Stack;
use width::Size;

/// The address n bytes above the one in a register.
#[inline(always)]
#[tactic(auto, unfolding(crate::specs::Stacks::above, width::specs::Numbers::rest, width::specs::Numbers::residue, width::specs::Sizes::modulus, width::specs::Sizes::bits))]
fn above(m: &Machine, i: u32, n: u32) -> u32
    ensures { result ≡ S.above m.now i n }
{
    m.register(i).wrapping_add(n)
}

/// The address 4 + n bytes above ESP.
#[inline(always)]
#[tactic(auto, unfolding(crate::specs::Stacks::above, width::specs::Numbers::rest, width::specs::Numbers::residue, width::specs::Sizes::modulus, width::specs::Sizes::bits))]
fn released(m: &Machine, n: u32) -> u32
    ensures { result ≡ S.above m.now S.esp (4 + n) }
{
    m.register(ESP).wrapping_add(4).wrapping_add(n)
}

/// The address 4 bytes below ESP.
#[inline(always)]
#[tactic(auto, unfolding(crate::specs::Stacks::below, width::specs::Numbers::rest, width::specs::Numbers::residue, width::specs::Sizes::modulus, width::specs::Sizes::bits))]
fn below(m: &Machine) -> u32
    ensures { result ≡ S.below m.now }
{
    m.register(ESP).wrapping_sub(4)
}

/// 003 "PUSH": ESP ← ESP - 4; the doubleword at ESP ← v.
#[inline(always)]
#[tactic(auto, unfolding(crate::specs::Does::done, crate::specs::Stacks::pushed, crate::specs::Stacks::below, machine::specs::Registers::register, machine::specs::Registers::with_register, machine::specs::Registers::with_eip, crate::specs::Words::writes, crate::specs::Performing::committed, crate::specs::Performing::stored))]
fn push(m: &mut Machine, v: u32, next: u32, memory: &mut Memory) -> Result<(), Stop>
    ensures does { Commits (S.pushed (with_eip m.old next) v) m.old memory.old result m.new memory.new }
    ensures same_areas { SameAreas memory.old memory.new }
{
    let top = below(m);
    memory.store(Size::Dword, top, v).map_err(Stop::Write)?;
    m.set_eip(next);
    m.set_register(ESP, top);
    Ok(())
}

/// What the operation does; a is the effective address.
#[tactic(auto, using(crate::proofs::Assign::done_assign, crate::proofs::Assign::done_becomes), unfolding(crate::specs::Does::did, crate::specs::Does::got_of, crate::specs::Stacks::stack_reads, crate::specs::Stacks::stack_effect, crate::specs::Words::onward))]
pub fn stack(m: &mut Machine, op: Stack, p: &Plan, a: u32, memory: &mut Memory) -> Result<(), Stop>
    ensures does { Performs (S.stack_reads op m.old p.now a) (λ r s. S.stack_effect op m.old p.now a r) m.old memory.old result m.new memory.new }
    ensures same_areas { SameAreas memory.old memory.new }
{
    let w = p.size;
    match op {
        Stack::Push => {
            let r = fetch(p.source, w, a, memory).map_err(Stop::Read)?;
            push(m, value(m, p.source, r, w), p.next, memory)
        }
        Stack::Pop => {
            let r = memory
                .load(Size::Dword, m.register(ESP))
                .map_err(Stop::Read)?;
            write(p.destination, w, a, r, memory).map_err(Stop::Write)?;
            let top = above(m, ESP, 4);
            m.set_eip(p.next);
            m.set_register(ESP, top);
            assign(m, p.destination, w, r);
            Ok(())
        }
        Stack::Leave => {
            let r = memory
                .load(Size::Dword, m.register(EBP))
                .map_err(Stop::Read)?;
            let top = above(m, EBP, 4);
            m.set_eip(p.next);
            m.set_register(ESP, top);
            m.set_register(EBP, r);
            Ok(())
        }
        Stack::Call => push(m, p.next, p.target, memory),
        Stack::CallTo => {
            let r = fetch(p.source, w, a, memory).map_err(Stop::Read)?;
            push(m, p.next, value(m, p.source, r, w), memory)
        }
        Stack::Return => {
            let r = memory
                .load(Size::Dword, m.register(ESP))
                .map_err(Stop::Read)?;
            let n = value(m, p.source, r, w);
            let top = released(m, n);
            m.set_eip(r);
            m.set_register(ESP, top);
            Ok(())
        }
    }
}
