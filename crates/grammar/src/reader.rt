//! A reader that carries the code area and a place in it, and what stands there.
ghost use Rattle.std.specs.Prelude.{◌≡◌, drop};
ghost use Rattle.grammar.specs.Decoding.{Decodes};
ghost use Rattle.grammar.specs.Answers.{own_bytes};

use crate::cursor::Cursor;
use crate::instruction::{Decoded, Fault};

/// The code area, and a place in it.
#[derive(Clone, Copy)]
pub struct Reader<'a> {
    pub code: &'a [u8],
    pub at: usize,
}

impl<'a> Reader<'a> {
    /// A reader of the code, at a place.
    pub fn new(code: &'a [u8], at: usize) -> Self
        ensures { (result.code ≡ code.entry) × (result.at ≡ at) }
    {
        Reader { code, at }
    }

    /// What stands at the reader's place.
    pub fn next(self) -> Result<Decoded, Fault>
        ensures place { Decodes self.entry.code.now self.entry.at result }
        ensures left { Decodes (drop self.entry.at self.entry.code.now) 0 result }
    {
        read(self.code, self.at)
    }
}

/// What stands at a place of the code, by way of a cursor.
// Code and place apart: docs/CONTRACTS.md names it so.
pub fn read(code: &[u8], at: usize) -> Result<Decoded, Fault>
    ensures { Decodes code.now at result }
{
    Cursor::new(code, at).instruction()
}

/// The bytes of a decoded instruction at its place, as a part of the code.
// Code and place apart, as in `read`.
pub fn own_bytes(code: &[u8], at: usize, d: Decoded) -> &[u8]
    ensures { result.now ≡ own_bytes d (drop at code.now) }
{
    let rest = &code[at.min(code.len())..];
    &rest[..d.length.min(rest.len())]
}
