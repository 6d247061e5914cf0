//! The words that instructions are written in: an operand fetched, its value, assigning.
ghost use Rattle.std.specs.Prelude.{◌≡◌, OnErr};
ghost use Rattle.effect.specs.Words as W;
ghost use Rattle.machine.specs.Answers.{stored_as, SameAreas};
ghost use Rattle.effect.specs.Does.{got_of, got_as, wrote, written};

use machine::memory::{Memory, Outside};
use machine::registers::Machine;
use plan::Operand;
use width::Size;

/// What is read of an operand: 0 where it isn't in memory, at which nobody looks then, as in the rules.
#[inline(always)]
#[tactic(auto, unfolding(crate::specs::Does::got_of, crate::specs::Words::read_of, crate::specs::Words::read_or))]
pub fn fetch(o: Operand, w: Size, a: u32, memory: &Memory) -> Result<u32, Outside>
    ensures { got_of memory.now.constants.now memory.now.area.now (W.read_of o a w) ≡ got_as result }
{
    match o {
        Operand::Memory => memory.load(w, a),
        Operand::Register(_) | Operand::Number(_) => Ok(0),
    }
}

/// An operand's value, where r is what was read.
#[inline(always)]
#[tactic(auto, unfolding(crate::specs::Words::value))]
pub fn value(m: &Machine, o: Operand, r: u32, w: Size) -> u32
    ensures { result ≡ W.value o m.now r w }
{
    match o {
        Operand::Register(i) => m.part(w, i),
        Operand::Memory => r,
        Operand::Number(n) => n,
    }
}

/// v written to an operand, where it lies in memory.
#[inline(always)]
#[tactic(auto, unfolding(crate::specs::Does::wrote, crate::specs::Does::written))]
pub fn write(o: Operand, w: Size, a: u32, v: u32, memory: &mut Memory) -> Result<(), Outside>
    ensures answer { wrote o memory.old.area.now w a ≡ stored_as result }
    ensures data { memory.new.area.now ≡ written o memory.old.area.now w a v }
    ensures err { OnErr result (memory.new.area.now ≡ memory.old.area.now) }
    ensures same_areas { SameAreas memory.old memory.new }
{
    match o {
        Operand::Memory => memory.store(w, a, v),
        Operand::Register(_) | Operand::Number(_) => Ok(()),
    }
}

/// v assigned to an operand, where it is no memory.
#[inline(always)]
#[tactic(auto, unfolding(crate::specs::Words::assigned))]
pub fn assign(m: &mut Machine, o: Operand, w: Size, v: u32)
    ensures { m.new ≡ W.assigned o m.old w v }
{
    if let Operand::Register(i) = o {
        m.set_part(w, i, v);
    }
}
