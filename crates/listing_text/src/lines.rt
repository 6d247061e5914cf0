//! A line for each instruction of a block.
ghost use Rattle.text.specs.Written.{Adds};
ghost use Rattle.listing_text.specs.Listing.{opcode_text, line_of, lines_from};

use grammar::reader::{own_bytes, read};
use text::Buffer;

/// Writes an opcode in capital hex: two digits, and four after 0F.
fn put_opcode(out: &mut Buffer, opcode: usize)
    ensures { Adds out.old (opcode_text opcode) out.new }
{
    let k = opcode as u64;
    if k < 0x100 {
        out.hex(2, k);
    } else {
        out.hex(4, 0x0F00 + k % 0x100);
    }
}

/// Writes the line of an instruction: its offset, how many bytes it has, its opcode.
fn put_line(out: &mut Buffer, offset: usize, size: usize, opcode: usize)
    ensures { Adds out.old (line_of offset size opcode) out.new }
{
    out.field(offset, b'\t');
    out.field(size, b'\t');
    put_opcode(out, opcode);
    out.byte(b'\n');
}

/// Writes the lines of so many instructions, from the code's start on; none where no instruction stands.
pub fn put_lines(code: &[u8], count: usize, out: &mut Buffer)
    ensures { Adds out.old (lines_from code.now count 0) out.new }
{
    // By hand: the offset goes on by each instruction's length.
    let mut offset = 0;
    for _ in 0..count {
        let Ok(instruction) = read(code, offset) else {
            return;
        };
        let own = own_bytes(code, offset, instruction);
        put_line(out, offset, own.len(), instruction.opcode);
        offset += own.len();
    }
}
