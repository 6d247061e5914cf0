//! Capital hex digits: the number and the bytes that they stand for.

ghost use Rattle.std.specs.Prelude.{◌≡◌, ◌<◌, ◌%◌, ◌^◌, is_some, unwrap_or, slice_index};
ghost use Rattle.vector_text.specs.Hex.{is_digit, digit_of, are_digits, value_of, bytes_of};

// Not the `digit` of `intel_hex`, where small letters are digits too.
/// The value of a hex digit; `None` for any other byte.
fn digit(byte: u8) -> Option<u8>
    ensures is { is_some result ≡ is_digit byte }
    ensures stands { unwrap_or result 0 ≡ digit_of byte }
    ensures small { unwrap_or result 0 < 16 }
{
    match byte {
        b'0'..=b'9' => Some(byte - b'0'),
        b'A'..=b'F' => Some(byte - b'A' + 10),
        _ => None,
    }
}

/// Whether all of the text is hex digits.
pub fn all_digits(text: &[u8]) -> bool
    ensures { result ≡ are_digits text.now }
{
    text.iter().all(|&b| digit(b).is_some())
}

/// What hex digits stand for: the last 16 of them.
pub fn value(text: &[u8]) -> u64
    ensures { result ≡ value_of text.now % 2 ^ 64 }
{
    let mut sum = 0u64;
    for &b in text {
        sum = sum
            .wrapping_mul(16)
            .wrapping_add(u64::from(digit(b).unwrap_or(0)));
    }
    sum
}

/// The byte of an index in a byte string; 0 behind its end.
pub fn byte_at(text: &[u8], i: usize) -> u8
    ensures { result ≡ slice_index (bytes_of text.now) i }
{
    if i < text.len() / 2 {
        return digit(text[i * 2]).unwrap_or(0) * 16 + digit(text[i * 2 + 1]).unwrap_or(0);
    }
    0
}
