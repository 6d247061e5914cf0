//! Text in a lent area: bytes, and numbers in decimal and in hexadecimal. What does not fit is left out.
#![tactic(auto)]

ghost use Rattle.std.specs.Prelude.{◌≡◌, [], ◌∷◌, ◌+◌, ◌<◌};
ghost use Rattle.text.specs.Written.{Adds};
ghost use Rattle.text.specs.Digits.{decimal, hex_digit, hexadecimal};
ghost use Rattle.text.specs.Fields.{field, refusal};

/// A digit below 16: a figure, or a capital letter.
#[tactic(auto, unfolding(crate::specs::Digits::hex_digit))]
fn digit(d: u64) -> u8
    requires { d < 16 }
    ensures { result ≡ hex_digit d }
{
    if d < 10 {
        b'0' + d as u8
    } else {
        b'A' + (d - 10) as u8
    }
}

/// A lent area, and the place in it for the next byte. What does not fit is left out, so nothing here can fail.
#[derive(Debug, Drop)]
pub struct Buffer<'a> {
    pub area: &'a mut [u8],
    pub at: usize,
}

impl<'a> Buffer<'a> {
    /// A buffer over an area, from its start on.
    pub fn new(area: &'a mut [u8]) -> Self
        ensures same_area { result.area.ghost_name ≡ area.entry.ghost_name }
        ensures area { result.area.now ≡ area.old }
        ensures at { result.at ≡ 0 }
    {
        Buffer { area, at: 0 }
    }

    /// Writes a byte.
    pub fn byte(&mut self, byte: u8)
        ensures { Adds self.old (byte ∷ []) self.new }
    {
        if self.at < self.area.len() {
            self.area[self.at] = byte;
            self.at += 1;
        }
    }

    /// Writes bytes.
    pub fn bytes(&mut self, bytes: &[u8])
        ensures { Adds self.old bytes.now self.new }
    {
        for &byte in bytes {
            self.byte(byte);
        }
    }

    /// Writes a number in decimal.
    // By recursion: division finds the last digit first, and it is written last.
    pub fn decimal(&mut self, n: u64)
        ensures { Adds self.old (decimal n) self.new }
    {
        if n < 10 {
            return self.byte(digit(n));
        }
        self.decimal(n / 10);
        self.byte(digit(n % 10));
    }

    /// Writes the last digits of a number in base 16, so many.
    // By recursion, as `decimal`.
    // Apart from `decimal`, which ends where the number does: one function for both would take both ends, and be no plainer.
    pub fn hex(&mut self, count: usize, n: u64)
        ensures { Adds self.old (hexadecimal count n) self.new }
    {
        if count > 0 {
            self.hex(count - 1, n / 16);
            self.byte(digit(n % 16));
        }
    }

    /// Writes a number in decimal, and the byte after it.
    pub fn field(&mut self, n: usize, end: u8)
        ensures { Adds self.old (field n end) self.new }
    {
        self.decimal(n as u64);
        self.byte(end);
    }

    /// Writes the line of a refusal: its number, and the place that goes with it.
    pub fn refusal(&mut self, number: usize, place: usize)
        ensures { Adds self.old (refusal number place) self.new }
    {
        self.bytes(b"refused\t");
        self.field(number, b'\t');
        self.field(place, b'\n');
    }
}
