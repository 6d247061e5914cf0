//! Why a run is refused before any step.
ghost use Rattle.std.specs.Prelude.{◌≡◌};
ghost use Rattle.run.specs.Runs.{number_of, refusal};
ghost use Rattle.run.specs.Ends.{refused_with};

use blockcheck::MOST_BYTES;

/// Why a run is refused: 65,536 bytes at most of code, which has one at least, of data and of constants; the flags word; 1,000,000 steps at most.
#[derive(Clone, Copy, Debug, PartialEq, Eq)]
pub enum Refusal {
    Code,
    Data,
    Constants,
    Flags,
    Budget,
}

impl Refusal {
    /// The number that callers get.
    #[tactic(auto, unfolding(crate::specs::Runs::number_of))]
    pub fn number(self) -> u32
        ensures { result ≡ number_of self }
    {
        match self {
            Refusal::Code => 10,
            Refusal::Data => 11,
            Refusal::Constants => 15,
            Refusal::Flags => 12,
            Refusal::Budget => 13,
        }
    }
}

/// The most bytes of data, and of constants.
const MOST_LENT: usize = 65_536;

/// The most steps.
const MOST_STEPS: u64 = 1_000_000;

/// The tests of what a run is handed: code, data, constants, flags, budget; the first that fails decides.
#[tactic(auto, unfolding(crate::specs::Runs::refusal, crate::specs::Runs::number_of))]
pub fn admit(
    code_length: usize,
    area_length: usize,
    constants_length: usize,
    word: u32,
    budget: u64,
) -> Result<(), Refusal>
    ensures { refusal code_length area_length constants_length word budget ≡ refused_with result }
{
    if code_length == 0 || MOST_BYTES < code_length {
        return Err(Refusal::Code);
    }
    if MOST_LENT < area_length {
        return Err(Refusal::Data);
    }
    if MOST_LENT < constants_length {
        return Err(Refusal::Constants);
    }
    if !flags::passes(word) {
        return Err(Refusal::Flags);
    }
    if MOST_STEPS < budget {
        return Err(Refusal::Budget);
    }
    Ok(())
}
