//! Bit scans: the index, and the flags.
ghost use Rattle.std.specs.Prelude.{◌≡◌};
ghost use Rattle.bits.specs.declared.Scan.TheVariants.{Bsr};
ghost use Rattle.bits.specs.Scans.{scan_value, scan_flags};

use crate::Scan;
use flags::Flags;

/// The index of the highest one; 0 of the number 0.
fn highest(v: u32) -> u32
    ensures { result ≡ scan_value Bsr v }
{
    if v == 0 { 0 } else { 31 - v.leading_zeros() }
}

/// The index that a bit scan of v finds.
pub fn scan_value(op: Scan, v: u32) -> u32
    ensures { result ≡ scan_value op v }
{
    match op {
        Scan::Bsf => v.trailing_zeros(),
        Scan::Bsr => highest(v),
    }
}

/// The flags after a bit scan of v.
pub fn scan_flags(v: u32, old: Flags) -> Flags
    ensures { result ≡ scan_flags v old }
{
    Flags {
        zf: v == 0,
        ..flags::all_undefined(old)
    }
}
