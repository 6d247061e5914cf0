//! Areas of bytes, filled from byte strings and compared with them.

ghost use Rattle.std.specs.Prelude.{◌≡◌, length, nat_le};
ghost use Rattle.vector_text.specs.Hex.{bytes_of, padded, equal, is_held};

use crate::hex::byte_at;

/// Whether a byte string has at most so many bytes.
pub fn fits(text: &[u8], size: usize) -> bool
    ensures { result ≡ nat_le (length (bytes_of text.now)) size }
{
    text.len() / 2 <= size
}

/// Puts the bytes of a byte string into an area, and zeros behind them.
pub fn fill(area: &mut [u8], text: &[u8])
    ensures { area.new ≡ padded (length area.old) (bytes_of text.now) }
{
    for (i, byte) in area.iter_mut().enumerate() {
        *byte = byte_at(text, i);
    }
}

/// Whether an area holds the bytes of a byte string as far as they fit, and zeros behind them.
fn begins(area: &[u8], text: &[u8]) -> bool
    ensures { result ≡ equal area.now (padded (length area.now) (bytes_of text.now)) }
{
    area.iter()
        .enumerate()
        .all(|(i, &byte)| byte == byte_at(text, i))
}

/// Whether an area holds the bytes of a byte string, and zeros behind them.
pub fn holds(area: &[u8], text: &[u8]) -> bool
    ensures { result ≡ is_held area.now (bytes_of text.now) }
{
    begins(area, text) && fits(text, area.len())
}
