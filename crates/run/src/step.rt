//! One step.
ghost use Rattle.std.specs.Prelude.{◌≡◌};
ghost use Rattle.effect.specs.Does.{Does};
ghost use Rattle.run.specs.Steps.{fixed_to, step_of, Steps};
ghost use Rattle.run.specs.Sites.{Keeps};

use crate::site::{Site, plan_at, site_at};
use effect::{Stop, execute};
use machine::memory::Memory;
use machine::registers::Machine;

/// A step that stopped: the machine as it was, and why.
#[derive(Clone, Copy)]
pub struct Stopped {
    pub machine: Machine,
    pub stop: Stop,
}

/// One step in place, with plans kept.
#[inline(always)]
#[tactic(auto, using(crate::proofs::Sites::step_is), unfolding(crate::specs::Sites::stepped))]
pub(crate) fn kept_step(
    code: &[u8],
    kept: &mut [Option<Site>; 64],
    m: &mut Machine,
    memory: &mut Memory,
) -> Result<(), Stop>
    requires { Keeps code.now kept.old }
    ensures does { Does (step_of (fixed_to code.now memory.old.constants.now) m.old memory.old.area.now) m.old memory.old.area.now result m.new memory.new.area.now }
    ensures constants { memory.new.constants.now ≡ memory.old.constants.now }
    ensures same_area { memory.new.area.ghost_name ≡ memory.old.area.ghost_name }
    ensures kept { Keeps code.now kept.new }
{
    let plan = plan_at(code, kept, m.eip)?;
    execute(m, &plan, memory)
}

/// One step: the next machine, with the data changed, or a stop that changes nothing.
// Constants and data apart, as callers lend them.
#[tactic(auto, using(crate::proofs::Sites::step_is), unfolding(crate::specs::Sites::stepped))]
pub fn step(
    code: &[u8],
    constants: &[u8],
    mut m: Machine,
    area: &mut [u8],
) -> Result<Machine, Stopped>
    ensures { Steps (step_of (fixed_to code.now constants.now) m area.old) m area.old result area.new }
{
    let plan = match site_at(code, m.eip) {
        Ok(plan) => plan,
        Err(stop) => return Err(Stopped { machine: m, stop }),
    };
    let mut memory = Memory { constants, area };
    match execute(&mut m, &plan, &mut memory) {
        Ok(()) => Ok(m),
        Err(stop) => Err(Stopped { machine: m, stop }),
    }
}
