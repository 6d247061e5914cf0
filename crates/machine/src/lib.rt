//! The machine, changed in place, and the lent areas that it reads and writes.
#![tactic(auto)]

pub mod memory;
pub mod registers;
