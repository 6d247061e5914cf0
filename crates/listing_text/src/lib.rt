//! The listing of a block: its instructions line by line, or why it is refused.
#![tactic(auto)]

mod lines;
mod verdict;

ghost use Rattle.std.specs.Prelude.{◌≡◌, ◌≤◌, length};
ghost use Rattle.listing_text.specs.Listing.{longest, Listed};

use crate::verdict::put_text;
use blockcheck::check;
use std::io::Read;
use streams::read_full;
use text::Buffer;

/// Checks a block, and writes its text from the start of a buffer on. Gives the place after the text.
// Code and marks apart, as callers lend them, here and below.
pub fn list(code: &[u8], marks: &mut [u8], out: &mut [u8]) -> usize
    ensures { Listed code.now marks.old out.old result marks.new out.new }
{
    let verdict = check(code, marks);
    let mut text = Buffer::new(out);
    put_text(code, verdict, &mut text);
    text.at
}

/// Room for the bytes of a block and one more, or for their marks.
fn block_buffer() -> [u8; 65537]
    ensures { 65537 ≡ length result }
{
    [0; 65537]
}

/// Writes the listing of a block, by way of a buffer in which no text is cut.
fn write_list(code: &[u8], marks: &mut [u8], out: &mut [u8], to: &impl Print)
    requires { longest ≤ length out.old }
{
    let end = list(code, marks, out);
    to.write_all(&out[..end]).ok();
}

/// The same by way of a buffer as long as the longest text.
// A step between, since without it the check of `list_input` runs out of stack.
fn write_whole(code: &[u8], marks: &mut [u8], out: &mut [u8; 786468], to: &impl Print) {
    write_list(code, marks, out, to);
}

/// Lists the code that is read: one byte more than a block may have is enough to refuse it. A write that fails is dropped, and a read that fails ends the input.
// Fixed buffers: this cannot fail, as a `Vec` can, and `read_to_end` would read on after an interrupted read.
pub fn list_input<R: Read>(from: &mut R, to: &impl Print) {
    let mut code = block_buffer();
    let size = read_full(from, &mut code);
    let mut marks = block_buffer();
    let mut out = [0u8; 786468];
    write_whole(&code[..size], &mut marks[..size], &mut out, to);
}
