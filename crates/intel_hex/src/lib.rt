//! Reading Intel HEX: the code that a file gives, or why it is refused and at which line.
#![tactic(auto)]

mod cell;
mod digits;
mod fault;
mod image;
mod judging;
mod line;

ghost use Rattle.std.specs.Prelude.{◌≡◌, ◌≤◌, length, replicate, None};
ghost use Rattle.intel_hex.specs.Files.{Outcome, number_of, value_of};
ghost use Rattle.intel_hex.specs.Reading.{Found, Concluded};

pub use crate::fault::{Fault, Refused};
use crate::image::Image;
use crate::judging::{File, judge_line};

/// Judges the lines of a text one after another, on a blank image.
fn judge(text: &[u8], size: usize, image: &mut Image) -> Result<File, Refused>
    requires { image.old.cells ≡ replicate 65536 None }
    ensures { Found text.now size result image.new.cells }
{
    let mut file = File {
        ended: false,
        upper: 0,
        top: 0,
    };
    for (before, bytes) in text.split_inclusive(|&b| b == b'\n').enumerate() {
        let line = before + 1;
        file = judge_line(bytes, file, size, image).map_err(|fault| Refused { fault, line })?;
    }
    Ok(file)
}

/// The answer for a text without a faulty line.
fn conclude(file: File, image: &Image, code: &mut [u8]) -> Result<usize, Refused>
    requires { (file.top ≤ 65536) × (file.top ≤ length code.old) }
    ensures { Concluded file image.now.cells code.old result code.new }
{
    if !file.ended {
        return Err(Refused {
            fault: Fault::NoEnd,
            line: 0,
        });
    }
    if file.top == 0 {
        return Err(Refused {
            fault: Fault::NoData,
            line: 0,
        });
    }
    image.copy_to(&mut code[..file.top]);
    Ok(file.top)
}

/// Reads a file into the code area: how long its code is, or why it is refused, which leaves the area as it is.
pub fn read(text: &[u8], code: &mut [u8]) -> Result<usize, Refused>
    ensures { Outcome text.now code.old (number_of result) (value_of result) code.new }
{
    let mut image = Image::blank();
    let file = judge(text, code.len(), &mut image)?;
    conclude(file, &image, code)
}
