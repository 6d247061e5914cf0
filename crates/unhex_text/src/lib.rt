//! A hex file at the command line: its code, or a line that says why it is refused.
#![tactic(auto)]

ghost use Rattle.std.specs.Prelude.{◌≤◌, length, IfSome};
ghost use Rattle.text.specs.Written.{Adds};
ghost use Rattle.unhex_text.specs.Unhexing.{code_line, longest, Tells, Unhexed};

use std::io::Read;
use streams::read_full;
use text::Buffer;

/// Where an answer ends: so many bytes of code, none where the file is refused, and so many of the line that tells it.
#[derive(Clone, Copy, Debug, PartialEq, Eq)]
pub struct Ends {
    pub code: Option<usize>,
    pub line: usize,
}

/// Writes the line of a file that is read.
fn put_code(out: &mut Buffer, size: usize)
    ensures { Adds out.old (code_line size) out.new }
{
    out.bytes(b"code\t");
    out.field(size, b'\n');
}

/// Reads a file into the code area, and writes the line that tells the answer. Gives how long its code is.
fn tell(text: &[u8], code: &mut [u8], line: &mut Buffer) -> Option<usize>
    ensures { Tells text.now code.old line.old result code.new line.new }
{
    if text.len() > 1048576 {
        line.bytes(b"refused\tlonger than 1048576 bytes\n");
        return None;
    }
    match intel_hex::read(text, code) {
        Ok(size) => {
            put_code(line, size);
            Some(size)
        }
        Err(refused) => {
            let number = refused.fault.number() as usize;
            line.refusal(number, refused.line);
            None
        }
    }
}

/// Reads a file into the code area, and writes the line that tells the answer from the start of a buffer on.
pub fn unhex(text: &[u8], code: &mut [u8], line: &mut [u8]) -> Ends
    ensures { Unhexed text.now code.old line.old result code.new line.new }
{
    let mut told = Buffer::new(line);
    let code = tell(text, code, &mut told);
    Ends {
        code,
        line: told.at,
    }
}

/// Reads a file by way of a buffer for its text, and answers it, by way of a buffer in which no line is cut.
fn answer_by<R: Read>(from: &mut R, text: &mut [u8], code: &mut [u8], line: &mut [u8]) -> Ends
    requires { longest ≤ length line.old }
    ensures code { IfSome result.code (λ size. size ≤ length code.new) }
    ensures line { result.line ≤ length line.new }
{
    let size = read_full(from, text);
    unhex(&text[..size], code, line)
}

/// The same by way of a buffer with one byte more than a file may have: that is enough to refuse it.
// A step between, since without it the check of `answer` runs out of stack.
fn answer_whole<R: Read>(
    from: &mut R,
    text: &mut [u8; 1048577],
    code: &mut [u8],
    line: &mut [u8],
) -> Ends
    requires { longest ≤ length line.old }
    ensures code { IfSome result.code (λ size. size ≤ length code.new) }
    ensures line { result.line ≤ length line.new }
{
    answer_by(from, text, code, line)
}

/// Reads a file, and answers it.
// A fixed buffer: the functions over this cannot fail, as a `Vec` can, and `read_to_end` would read on after an interrupted read.
fn answer<R: Read>(from: &mut R, code: &mut [u8], line: &mut [u8]) -> Ends
    requires { longest ≤ length line.old }
    ensures code { IfSome result.code (λ size. size ≤ length code.new) }
    ensures line { result.line ≤ length line.new }
{
    let mut text = [0u8; 1048577];
    answer_whole(from, &mut text, code, line)
}

/// As long as the longest line.
const LINE: usize = 34;

/// Writes the code of the hex file that is read to `out`, or why it is refused to `err`. A write that fails is dropped, and a read that fails ends the input.
// Fixed buffers, as in `answer`; 65,536 bytes, the most that `intel_hex` fills, which keeps its bound to itself.
pub fn unhex_input<R: Read>(from: &mut R, out: &impl Print, err: &impl Print) {
    let mut code = [0u8; 65536];
    let mut line = [0u8; LINE];
    let ends = answer(from, &mut code, &mut line);
    match ends.code {
        Some(size) => out.write_all(&code[..size]).ok(),
        None => err.write_all(&line[..ends.line]).ok(),
    };
}

/// Says what is found of a hex file: how long its code is, or why it is refused. A write that fails is dropped, and a read that fails ends the input.
// Fixed buffers, as in `unhex_input`.
pub fn say_file<R: Read>(from: &mut R, out: &impl Print) {
    let mut code = [0u8; 65536];
    let mut line = [0u8; LINE];
    let ends = answer(from, &mut code, &mut line);
    out.write_all(&line[..ends.line]).ok();
}
