//! Jumps, calls and loops: the displacement that their immediate is.
ghost use Rattle.std.specs.Prelude.{◌≡◌};
ghost use Rattle.grammar.specs.Relative.{relative_of};

use crate::bytes::extended;
use crate::instruction::Decoded;

/// The displacement of a decoded instruction, where its opcode has one: rel8 is extended by sign.
pub fn relative_of(d: Decoded) -> Option<u32>
    ensures { result ≡ relative_of d }
{
    // Tests of the opcode, and not its row's rule: by the rule a block check takes more instructions (docs/DECISIONS.md).
    match d.opcode {
        0x70..=0x7F | 0xE0..=0xE3 | 0xEB => Some(extended((d.immediate % 256) as u8)),
        0xE8 | 0xE9 | 0x180..=0x18F => Some(d.immediate),
        _ => None,
    }
}
