//! What is taken of the input so far.

ghost use Rattle.std.specs.Prelude.{◌≤◌};

use crate::tally::Tally;

/// The tally so far, and the bytes of the next line that are held.
#[derive(Drop)]
pub struct Taken {
    pub tally: Tally,
    /// Room for a line, and for one byte more to tell that it is too long. An array, since `judge_input` cannot fail and a `Vec` can.
    pub line: [u8; 1024],
    pub held: usize,
    ghost within: { held ≤ 1024 },
}
