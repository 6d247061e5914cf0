//! Runs test cases, one a line, and says where one first comes out otherwise than its line says.
#![tactic(auto)]

mod difference;
mod judging;
mod reading;
mod taken;
mod tally;

use crate::reading::take_all;
use crate::tally::Tally;
use std::io::Read;

/// Judges all cases that are read, and tells their count. A write that fails is dropped, and a read that fails ends the input.
pub fn judge_input<R: Read>(from: &mut R, to: &impl Print) {
    let Tally { cases, differing } = take_all(from, to);
    // Piece by piece, as in `say_difference`.
    print!(to; "{cases}").ok();
    to.write_all(b" cases, ").ok();
    print!(to; "{differing}").ok();
    to.write_all(b" differ\n").ok();
}
