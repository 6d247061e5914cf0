//! One step of a plan.
//! Machine, plan and memory stay apart throughout: the machine is changed after the memory, and the plan never is.
ghost use Rattle.std.specs.Prelude.{◌≡◌};
ghost use Rattle.effect.specs.Performing.{planned};
ghost use Rattle.machine.specs.Answers.{SameAreas};
ghost use Rattle.effect.specs.Does.{Does};

use crate::arithmetic;
use crate::branches::branch;
use crate::moves::{flagging, moves};
use crate::singles::{compare_single, compute_single, move_single};
use crate::stacks::stack;
use crate::stop::Stop;
use crate::strings::string;
use machine::memory::Memory;
use machine::registers::Machine;
use plan::Plan;
use sense::Operation;

/// One step of a plan.
#[inline(always)]
#[tactic(auto, using(crate::proofs::Executed::planned_is, crate::proofs::Assign::done_becomes), unfolding(crate::specs::Does::executed_of, crate::specs::Does::did, crate::specs::Does::got_of, crate::specs::Rounds::string_of, crate::specs::All::address_by, crate::specs::All::reads_by, crate::specs::All::effect_by))]
pub fn execute(m: &mut Machine, p: &Plan, memory: &mut Memory) -> Result<(), Stop>
    ensures does { Does (planned memory.old.constants.now p.now m.old memory.old.area.now) m.old memory.old.area.now result m.new memory.new.area.now }
    ensures same_areas { SameAreas memory.old memory.new }
{
    let a = plan::effective_address(m, p.address);
    match p.operation {
        Operation::Arithmetic(op) => {
            let b = arithmetic::address(m, op, p, a);
            arithmetic::arithmetic(m, op, p, b, memory)
        }
        Operation::Move(op) => moves(m, op, p, a, memory),
        Operation::Flagging(op) => {
            flagging(m, op, p);
            Ok(())
        }
        Operation::Stack(op) => stack(m, op, p, a, memory),
        Operation::Branch(op) => branch(m, op, p, a, memory),
        Operation::Strings(op) => string(m, op, p, memory),
        Operation::MoveSingle => move_single(m, p, a, memory),
        Operation::ComputeSingle(op) => compute_single(m, op, p, a, memory),
        Operation::CompareSingle => compare_single(m, p, a, memory),
    }
}
