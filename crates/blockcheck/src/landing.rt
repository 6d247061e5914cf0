//! The pass that looks where the displacements lead.
ghost use Rattle.std.specs.Prelude.{◌≡◌, List, ℕ, ◌+◌, ◌<◌, ◌^◌, length};
ghost use Rattle.grammar.specs.Relative.{relative_of};
ghost use Rattle.blockcheck.specs.Blocks.{target_of, Lands, Arrives};
ghost use Rattle.blockcheck.specs.Passes.{Tells, Shows, Whole, Looks, Sought};

use crate::CODE;
use grammar::instruction::Decoded;
use grammar::reader::read;
use grammar::relative::relative_of;

/// The address that a displacement leads to, from an instruction's offset and length.
fn leads_to(at: usize, size: usize, displacement: u32) -> u32
    requires { at + size < 2 ^ 63 }
    ensures { result ≡ target_of at size displacement }
{
    // In 64 bits, as the clause has it: the sum of all four, and then its rest. `CODE` by `as`, like the lengths: `From` for it alone would be no plainer.
    ((CODE as u64 + at as u64 + size as u64 + u64::from(displacement)) % 0x1_0000_0000) as u32
}

/// Whether a marked start lies at this address.
fn lands(marks: &[u8], address: u32) -> bool
    ensures { (starts : List ℕ) → Shows marks.now starts → Tells (Lands starts address) result }
{
    if address < CODE {
        return false;
    }
    let at = (address - CODE) as usize;
    if marks.len() <= at {
        return false;
    }
    marks[at] != 0
}

/// Whether an instruction's displacement, if it has one, leads to a marked start.
fn arrives(marks: &[u8], at: usize, d: Decoded) -> bool
    requires { at + d.length < 2 ^ 63 }
    ensures { (starts : List ℕ) → Shows marks.now starts → Tells (Arrives starts at d.length (relative_of d)) result }
{
    match relative_of(d) {
        None => true,
        Some(displacement) => lands(marks, leads_to(at, d.length, displacement)),
    }
}

/// Whether nothing goes astray here: the mark tells of no displacement, or it leads to a marked start.
// Code and marks apart, as in `check`.
fn looks_well(code: &[u8], marks: &[u8], at: usize) -> bool
    requires { at < length marks.now }
    ensures { Looks code.now marks.now at result }
{
    if marks[at] != 2 {
        return true;
    }
    match read(code, at) {
        Ok(d) => arrives(marks, at, d),
        Err(_) => true,
    }
}

/// The offset of the first instruction whose displacement leads to no start.
// Code and marks apart, as in `check`.
pub fn first_astray(code: &[u8], marks: &[u8]) -> Option<usize>
    requires { Whole code.now marks.now }
    ensures { Sought code.now result }
{
    for at in 0..code.len() {
        if !looks_well(code, marks, at) {
            return Some(at);
        }
    }
    None
}
