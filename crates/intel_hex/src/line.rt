//! A line that is one record, and the parts of that.
ghost use Rattle.std.specs.Prelude.{◌≡◌, ◌+◌, ◌*◌, ◌%◌, ◌<◌, ◌≤◌, length, MatchOption};
ghost use Rattle.intel_hex.specs.Records.{total};
ghost use Rattle.intel_hex.specs.Reading.{is_pair, pairs_in, is_end, byte_at, bytes_at, IsRecord, IsNoRecord};

use crate::digits::{byte_at, digit};

/// Whether two bytes are digits.
#[tactic(auto, unfolding(crate::specs::Reading::is_pair))]
fn is_pair(a: u8, b: u8) -> bool
    ensures { result ≡ is_pair a b }
{
    digit(a).is_some() && digit(b).is_some()
}

/// How many pairs of digits a text begins with.
fn pairs(text: &[u8]) -> usize
    ensures { result ≡ pairs_in text.now }
{
    // Not chunks_exact, take_while and count: what `count` ensures of that chain left this clause open.
    let mut n = 0;
    let mut left = text;
    while let [a, b, rest @ ..] = left {
        if !is_pair(*a, *b) {
            return n;
        }
        n += 1;
        left = rest;
    }
    n
}

/// Whether a text is nothing but a line's end: LF or CR LF.
#[tactic(auto, using(crate::proofs::Places::line_ends))]
fn is_end(text: &[u8]) -> bool
    ensures { result ≡ is_end text.now }
{
    matches!(text, [b'\n'] | [b'\r', b'\n'])
}

/// A line that is exactly one record, from colon to checksum, and how many data bytes it has.
#[derive(Clone, Copy)]
pub struct Line<'a> {
    pub bytes: &'a [u8],
    pub count: usize,
    ghost long: { 11 + 2 * count ≤ length bytes.now },
}

impl<'a> Line<'a> {
    /// The line, if it is exactly one record.
    pub fn read(bytes: &'a [u8]) -> Option<Self>
        ensures { MatchOption result (IsNoRecord bytes.now) (λ line. (line.bytes.now ≡ bytes.now) × IsRecord bytes.now line.count) }
    {
        if bytes.is_empty() || bytes[0] != b':' {
            return None;
        }
        let n = pairs(&bytes[1..]);
        if n < 5 {
            return None;
        }
        let count = usize::from(byte_at(bytes, 1));
        if n != count + 5 || !is_end(&bytes[1 + 2 * n..]) {
            return None;
        }
        Some(Line { bytes, count })
    }

    /// A byte of the record, as they stand in the line: the count, the offset's two, the type, the data, the checksum.
    fn byte(&self, i: usize) -> u8
        requires { i < self.now.count + 5 }
        ensures { result ≡ byte_at self.now.bytes.now (1 + 2 * i) }
    {
        byte_at(self.bytes, 1 + 2 * i)
    }

    /// Two of its bytes as a number, the upper first.
    fn pair(&self, i: usize) -> u16
        requires { i + 1 < self.now.count + 5 }
        ensures { result ≡ 256 * byte_at self.now.bytes.now (1 + 2 * i) + byte_at self.now.bytes.now (3 + 2 * i) }
    {
        u16::from_be_bytes([self.byte(i), self.byte(i + 1)])
    }

    /// The offset.
    pub fn offset(&self) -> u16
        ensures { result ≡ 256 * byte_at self.now.bytes.now 3 + byte_at self.now.bytes.now 5 }
    {
        self.pair(1)
    }

    /// The type.
    pub fn kind(&self) -> u8
        ensures { result ≡ byte_at self.now.bytes.now 7 }
    {
        self.byte(3)
    }

    /// A data byte.
    pub fn data(&self, k: usize) -> u8
        requires { k < self.now.count }
        ensures { result ≡ byte_at self.now.bytes.now (9 + 2 * k) }
    {
        self.byte(4 + k)
    }

    /// The upper half that two data bytes give.
    pub fn upper(&self) -> u16
        requires { self.now.count ≡ 2 }
        ensures { result ≡ 256 * byte_at self.now.bytes.now 9 + byte_at self.now.bytes.now 11 }
    {
        self.pair(4)
    }

    /// The sum of all its bytes, modulo 256.
    pub fn sum(&self) -> u8
        ensures { result ≡ total (bytes_at self.now.bytes.now 1 (self.now.count + 5)) % 256 }
    {
        let mut sum = 0u8;
        for i in 0..self.count + 5 {
            sum = sum.wrapping_add(self.byte(i));
        }
        sum
    }
}
