//! Why a step stops.
ghost use Rattle.std.specs.Prelude.{◌≡◌};
ghost use Rattle.effect.specs.Stops.{number_of, address_of};

use machine::memory::Outside;

/// Why a step stops: EIP is home or outside the code, its instruction is cut or unknown, a read or a write is outside, or a division is none.
#[derive(Clone, Copy, Debug, PartialEq, Eq)]
pub enum Stop {
    Home,
    OutsideCode,
    Cut,
    Unknown,
    Read(Outside),
    Write(Outside),
    Divide,
}

impl Stop {
    /// The number that callers get, 1 to 7 in the order of the reasons.
    pub fn number(self) -> u32
        ensures { result ≡ number_of self }
    {
        match self {
            Stop::Home => 1,
            Stop::OutsideCode => 2,
            Stop::Cut => 3,
            Stop::Unknown => 4,
            Stop::Read(_) => 5,
            Stop::Write(_) => 6,
            Stop::Divide => 7,
        }
    }

    /// The address that comes with it, where EIP is as given: the first outside, or EIP.
    pub fn address(self, eip: u32) -> u32
        ensures { result ≡ address_of self eip }
    {
        match self {
            Stop::Read(outside) | Stop::Write(outside) => outside.address,
            Stop::Home | Stop::OutsideCode | Stop::Cut | Stop::Unknown | Stop::Divide => eip,
        }
    }
}
