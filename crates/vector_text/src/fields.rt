//! The fields of a line, parted by tabs: their sorts, and their numbers.

ghost use Rattle.std.specs.Prelude.{◌≡◌, ◌%◌, ◌^◌};
ghost use Rattle.vector_text.specs.Hex.{value_of};
ghost use Rattle.vector_text.specs.Fields.{fields, field_of, is_number, is_bytes, sort_of, is_of, formed};

use crate::hex::{all_digits, value};

/// Whether the text is a number of so many digits at the most.
fn is_number(text: &[u8], most: usize) -> bool
    ensures { result ≡ is_number most text.now }
{
    !text.is_empty() && text.len() <= most && all_digits(text)
}

/// Whether the text is a byte string: two digits a byte, or a dash for none.
#[tactic(auto, unfolding(text::specs::Ascii::ascii))]
fn is_bytes(text: &[u8]) -> bool
    ensures { result ≡ is_bytes text.now }
{
    text == b"-".as_slice() || (!text.is_empty() && text.len() % 2 == 0 && all_digits(text))
}

/// Whether a field is of the sort that a letter stands for: r the word run, c the word check, h the word hex,
/// n a number of 32 bits, w one of 64, b bytes, - nothing.
#[tactic(auto, unfolding(text::specs::Ascii::ascii))]
fn is_of(text: &[u8], sort: u8) -> bool
    ensures { result ≡ is_of (sort_of sort) text.now }
{
    // A letter a field, so that a line's form is a text as long as the line has fields: a list of enum variants would be no plainer.
    match sort {
        b'r' => text == b"run".as_slice(),
        b'c' => text == b"check".as_slice(),
        b'h' => text == b"hex".as_slice(),
        b'n' => is_number(text, 8),
        b'w' => is_number(text, 16),
        b'b' => is_bytes(text),
        _ => text == b"-".as_slice(),
    }
}

/// Whether a line has just the fields that the letters stand for, one a letter.
// Field by field: what lies behind the first one that is wrong, or one too many, is not looked at.
pub fn has_form(line: &[u8], sorts: &[u8]) -> bool
    ensures { result ≡ formed (fields line.now) sorts.now }
{
    let mut left = Some(line);
    for &sort in sorts {
        let Some(rest) = left else {
            return false;
        };
        let text = field(rest, 1);
        if !is_of(text, sort) {
            return false;
        }
        left = rest.get(text.len() + 1..);
    }
    left.is_none()
}

/// The field of a number, the first being 1; nothing if the line has fewer.
// Line and number apart, here and below: docs/CONTRACTS.md names them so.
pub fn field(line: &[u8], number: usize) -> &[u8]
    ensures { result.now ≡ field_of line.now number }
{
    line.split(|&b| b == b'\t')
        .nth(number.saturating_sub(1))
        .unwrap_or(b"")
}

/// The field of a number, as a number of 64 bits.
pub fn number_64(line: &[u8], number: usize) -> u64
    ensures { result ≡ value_of (field_of line.now number) % 2 ^ 64 }
{
    value(field(line, number))
}

/// The field of a number, as a number of 32 bits.
pub fn number_32(line: &[u8], number: usize) -> u32
    ensures { result ≡ value_of (field_of line.now number) % 2 ^ 32 }
{
    (number_64(line, number) % 0x1_0000_0000) as u32
}
