//! Hex digits in either case, and the bytes that two of them stand for.
ghost use Rattle.std.specs.Prelude.{◌≡◌, suc, ◌<◌, length};
ghost use Rattle.intel_hex.specs.Reading.{digit_of, worth, byte_at};

// Not the `digit` of `vector_text`, where capital digits alone are digits.
/// What a hex digit stands for.
#[tactic(auto, unfolding(crate::specs::Reading::digit_of))]
pub fn digit(byte: u8) -> Option<u8>
    ensures { result ≡ digit_of byte }
{
    match byte {
        b'0'..=b'9' => Some(byte - b'0'),
        b'A'..=b'F' => Some(byte - b'A' + 10),
        b'a'..=b'f' => Some(byte - b'a' + 10),
        _ => None,
    }
}

/// What a byte counts in a pair of digits: less than 16, and 0 where it is none.
#[tactic(auto, using(crate::proofs::Values::worth_below), unfolding(crate::specs::Reading::worth))]
fn worth(byte: u8) -> u8
    ensures { (result ≡ worth byte) × (result < 16) }
{
    digit(byte).unwrap_or(0)
}

/// The byte that the two digits at a place stand for.
// Bytes and a place: `Line::read` calls it before there is a `Line`.
#[tactic(auto, unfolding(crate::specs::Reading::byte_at))]
pub fn byte_at(line: &[u8], i: usize) -> u8
    requires { suc i < length line.now }
    ensures { result ≡ byte_at line.now i }
{
    16 * worth(line[i]) + worth(line[i + 1])
}
