//! The count of the cases, and what is said of them.

ghost use Rattle.std.specs.Prelude.{◌≡◌};
ghost use Rattle.vector_run.specs.Counts.{counted};

use crate::difference::Difference;

/// The cases so far, and how many of them differ.
#[derive(Clone, Copy, Debug, PartialEq, Eq)]
pub struct Tally {
    pub cases: u64,
    pub differing: u64,
}

/// Writes the line of a case that differs.
// Piece by piece: one that can't be written is dropped by itself.
fn say_difference(to: &impl Print, case: u64, difference: Difference) {
    print!(to; "{case}").ok();
    match difference {
        Difference::Field(_) => {
            to.write_all(b" ").ok();
            print!(to; "{difference}").ok();
            to.write_all(b"\n").ok();
        }
        Difference::Malformed => {
            // The words as bytes: where every line is malformed, formatting them takes a third longer.
            to.write_all(b" malformed\n").ok();
        }
    }
}

impl Tally {
    /// With one case more. Writes the line of one that differs; a write that fails is dropped.
    pub fn counting(self, finding: Result<(), Difference>, to: &impl Print) -> Self
        ensures { result ≡ counted self finding }
    {
        let cases = self.cases.wrapping_add(1);
        match finding {
            Ok(()) => Tally { cases, ..self },
            Err(difference) => {
                say_difference(to, cases, difference);
                let differing = self.differing.wrapping_add(1);
                Tally { cases, differing }
            }
        }
    }
}
