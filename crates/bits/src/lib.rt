//! Operations on the bits of a number: bit tests, bit scans, double shifts.
#![tactic(auto)]

pub mod doubles;
pub mod scans;
pub mod tests;

/// The bit tests, in the order of 0F BA's reg fields /4 to /7.
#[derive(Clone, Copy, Debug, PartialEq, Eq)]
pub enum BitTest {
    Bt,
    Bts,
    Btr,
    Btc,
}

/// Bit scans: for the lowest one, and for the highest.
#[derive(Clone, Copy, Debug, PartialEq, Eq)]
pub enum Scan {
    Bsf,
    Bsr,
}

/// Double shifts: to the left, and to the right.
#[derive(Clone, Copy, Debug, PartialEq, Eq)]
pub enum DoubleShift {
    Shld,
    Shrd,
}
