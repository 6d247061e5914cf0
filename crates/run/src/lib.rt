//! A run of a block: refusals before any step, then steps until the budget is used up or one stops.
#![tactic(auto)]

mod refusal;
mod site;
pub mod step;

ghost use Rattle.std.specs.Prelude.{◌≡◌};
ghost use Rattle.run.specs.Steps.{fixed_to};
ghost use Rattle.run.specs.Runs.{Runs, run_from, run_of, told, number_at, address_at};
ghost use Rattle.run.specs.Ends.{ended};

use crate::refusal::admit;
use crate::step::kept_step;
use effect::Stop;
use flags::Word;
use machine::memory::Memory;
use machine::registers::Machine;
pub use refusal::Refusal;
use scalar::Xmm;

/// The machine as the caller lends it, and gets it back: with the flags word.
// Apart from `Machine`: a lent word may have bits that are no flags, for which a run is refused.
#[derive(Clone, Copy)]
pub struct Lent {
    pub regs: [u32; 8],
    pub xmm: [Xmm; 8],
    pub eip: u32,
    pub word: u32,
}

/// The machine that is lent, with its flags by the word.
impl From<Lent> for Machine {
    ghost use Rattle.std.specs.Prelude.{◌≡◌};
    ghost use Rattle.run.specs.Runs.{opened};

    ghost from_gives = { λ l m. m ≡ opened l };

    #[tactic(auto, unfolding(crate::specs::Runs::opened))]
    fn from(l: Lent) -> Machine {
        let Lent {
            regs,
            xmm,
            eip,
            word,
        } = l;
        Machine {
            regs,
            xmm,
            eip,
            flags: Word::of_bits(word),
        }
    }
}

/// A machine as it is handed back: the word of its flags has no other bit.
impl From<Machine> for Lent {
    ghost use Rattle.std.specs.Prelude.{◌≡◌};
    ghost use Rattle.run.specs.Runs.{closed};

    ghost from_gives = { λ m l. l ≡ closed m };

    #[tactic(auto, unfolding(crate::specs::Runs::closed))]
    fn from(m: Machine) -> Lent {
        let word = flags::pack(m.flags.unpack());
        let Machine { regs, xmm, eip, .. } = m;
        Lent {
            regs,
            xmm,
            eip,
            word,
        }
    }
}

/// What ends a run: its budget, a step that stops, or a refusal before any step.
#[derive(Clone, Copy, Debug, PartialEq, Eq)]
pub enum End {
    Budget,
    Stop(Stop),
    Refused(Refusal),
}

impl End {
    /// The number that callers get, 0 for the budget.
    #[tactic(auto, unfolding(crate::specs::Runs::number_at))]
    pub fn number(self) -> u32
        ensures { result ≡ number_at self }
    {
        match self {
            End::Budget => 0,
            End::Stop(stop) => stop.number(),
            End::Refused(refusal) => refusal.number(),
        }
    }

    /// The address that comes with it, where EIP is as given.
    #[tactic(auto, unfolding(crate::specs::Runs::address_at))]
    pub fn address(self, eip: u32) -> u32
        ensures { result ≡ address_at self eip }
    {
        match self {
            End::Budget => eip,
            End::Stop(stop) => stop.address(eip),
            End::Refused(_) => 0,
        }
    }
}

/// What a run gives back: the machine, the steps done, and what ended it.
#[derive(Clone, Copy)]
pub struct Ran {
    pub machine: Lent,
    pub steps: u64,
    pub end: End,
}

impl Ran {
    /// The number of the end, 0 for the budget.
    #[tactic(auto, unfolding(crate::specs::Runs::told))]
    pub fn number(&self) -> u32
        ensures { result ≡ (told self.now).number }
    {
        self.end.number()
    }

    /// The address that comes with it.
    #[tactic(auto, unfolding(crate::specs::Runs::told))]
    pub fn address(&self) -> u32
        ensures { result ≡ (told self.now).address }
    {
        self.end.address(self.machine.eip)
    }
}

/// So many steps at the most, until one stops: how many were done, and what ended them.
#[tactic(auto, using(crate::proofs::Going::goes, crate::proofs::Going::ends_stopped, crate::proofs::Going::ends_used), unfolding(crate::specs::Runs::number_at, crate::specs::Runs::address_at))]
fn steps(code: &[u8], m: &mut Machine, memory: &mut Memory, budget: u64) -> (u64, End)
    ensures ends { run_from (fixed_to code.now memory.old.constants.now) budget m.old memory.old.area.now 0 ≡ ended result.0 result.1 m.new memory.new.area.now }
    ensures constants { memory.new.constants.now ≡ memory.old.constants.now }
    ensures same_area { memory.new.area.ghost_name ≡ memory.old.area.ghost_name }
{
    // Fixed, since the emulator asks for no memory.
    let mut kept = [None; 64];
    for n in 0..budget {
        if let Err(stop) = kept_step(code, &mut kept, m, memory) {
            return (n, End::Stop(stop));
        }
    }
    (budget, End::Budget)
}

/// A run of a block.
// Constants and data apart, as callers lend them.
#[tactic(auto, using(crate::proofs::Handing::hands_taken, crate::proofs::Handing::hands_refused), unfolding(crate::specs::Runs::taken, crate::specs::Runs::refused, crate::specs::Runs::told, crate::specs::Runs::number_at, crate::specs::Runs::address_at, crate::specs::Runs::closed))]
pub fn run(l: Lent, code: &[u8], constants: &[u8], area: &mut [u8], budget: u64) -> Ran
    ensures { Runs (run_of (fixed_to code.now constants.now) l area.old budget) result area.new }
{
    if let Err(refusal) = admit(code.len(), area.len(), constants.len(), l.word, budget) {
        return Ran {
            machine: l,
            steps: 0,
            end: End::Refused(refusal),
        };
    }
    let mut m = Machine::from(l);
    let mut memory = Memory { constants, area };
    let (steps, end) = steps(code, &mut m, &mut memory, budget);
    Ran {
        machine: Lent::from(m),
        steps,
        end,
    }
}
