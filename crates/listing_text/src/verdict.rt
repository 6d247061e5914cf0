//! The text of a block, from what the check answers.
ghost use Rattle.std.specs.Prelude.{◌++◌};
ghost use Rattle.blockcheck.specs.Blocks.{number_of, value_of};
ghost use Rattle.text.specs.Written.{Adds};
ghost use Rattle.text.specs.Fields.{newline, field};
ghost use Rattle.listing_text.specs.Listing.{accepted_word, lines_from, body_of, text_of};

use crate::lines::put_lines;
use blockcheck::Refusal;
use text::Buffer;

/// Writes the lines of an accepted block, and the count of its instructions.
fn put_accepted(code: &[u8], count: usize, out: &mut Buffer)
    ensures { Adds out.old (lines_from code.now count 0 ++ accepted_word ++ field count newline) out.new }
{
    put_lines(code, count, out);
    out.bytes(b"accepted\t");
    out.field(count, b'\n');
}

/// Writes what follows the header.
fn put_body(code: &[u8], verdict: Result<usize, Refusal>, out: &mut Buffer)
    ensures { Adds out.old (body_of code.now (number_of verdict) (value_of verdict)) out.new }
{
    match verdict {
        Ok(count) => put_accepted(code, count, out),
        Err(refusal) => out.refusal(refusal.number() as usize, refusal.offset()),
    }
}

/// Writes the whole text.
pub fn put_text(code: &[u8], verdict: Result<usize, Refusal>, out: &mut Buffer)
    ensures { Adds out.old (text_of code.now (number_of verdict) (value_of verdict)) out.new }
{
    out.bytes(b"offset\tlength\topcode\n");
    put_body(code, verdict, out);
}
