//! How far the code is read, and the numbers that are read next.
ghost use Rattle.std.specs.Prelude.{◌≡◌, ◌≤◌, length, drop};
ghost use Rattle.grammar.specs.Decoding.{Count};
ghost use Rattle.grammar.specs.Fields.{Reads, byte_at, number_at, displacement_at};

use crate::bytes::extended;
use crate::instruction::Fault;
use std::marker::Model;

/// The code, and how far it is read. Its value are the bytes that are left.
// Apart from `Reader`, which is `Copy`: what has a value of its own and a lifetime can't be.
#[derive(Drop)]
pub struct Cursor<'a> {
    code: &'a [u8],
    at: usize,
}

impl<'a> Model for Cursor<'a> {
    ghost use Rattle.std.specs.Prelude.{List, ℕ, drop, length, ◌≤◌};

    ghost Value = { List ℕ };

    ghost view = { λ r. drop r.at r.code.now };

    ghost invariant = { λ r. r.at ≤ length r.code.now };
}

impl<'a> Cursor<'a> {
    /// A cursor in the code, at a place; behind the code's end nothing is left.
    pub fn new(code: &'a [u8], at: usize) -> Self
        ensures { result ≡ drop at code.now }
    {
        Cursor {
            code,
            at: at.min(code.len()),
        }
    }

    /// How many bytes are left.
    pub(crate) fn left(&self) -> usize
        ensures { result ≡ length self.now }
    {
        self.code.len() - self.at
    }

    /// The next byte.
    pub(crate) fn byte(&mut self) -> Result<u8, Fault>
        ensures reads { Reads self.new result (byte_at self.old) }
        ensures less { length self.new ≤ length self.old }
    {
        let b = *self.code.get(self.at).ok_or(Fault::Cut)?;
        self.at += 1;
        Ok(b)
    }

    /// The number of the next bytes, the low byte first.
    #[tactic(auto, unfolding(width::specs::LittleEndian::little_endian))]
    pub(crate) fn number(&mut self, n: usize) -> Result<u32, Fault>
        requires { Count n }
        ensures reads { Reads self.new result (number_at n self.old) }
        ensures less { length self.new ≤ length self.old }
    {
        let rest = &self.code[self.at..];
        let value = match n {
            0 => 0,
            1 => u32::from(*rest.first().ok_or(Fault::Cut)?),
            2 => match *rest {
                [a, b, ..] => u32::from(u16::from_le_bytes([a, b])),
                _ => return Err(Fault::Cut),
            },
            _ => match *rest {
                [a, b, c, d, ..] => u32::from_le_bytes([a, b, c, d]),
                _ => return Err(Fault::Cut),
            },
        };
        self.at += n;
        Ok(value)
    }

    /// The displacement of the next bytes: one byte is extended by sign.
    pub(crate) fn displacement(&mut self, n: usize) -> Result<u32, Fault>
        requires { Count n }
        ensures reads { Reads self.new result (displacement_at n self.old) }
        ensures less { length self.new ≤ length self.old }
    {
        if n == 1 {
            return Ok(extended(self.byte()?));
        }
        self.number(n)
    }
}
