//! Judging a line after those before it.
ghost use Rattle.std.specs.Prelude.{◌≡◌, false};
ghost use Rattle.intel_hex.specs.Reading.{byte_at, Summed, IsRecord, ending, rising, reaching, end_judged, upper_judged, JudgesFrom};

use crate::fault::Fault;
use crate::image::{Image, MOST};
use crate::line::Line;

/// Code offset 0.
// Of its own, as `image::MOST`.
const CODE: usize = 0x0001_0000;

/// What is known after some lines: whether an end record was among them, the upper half, the code's length so far.
// `ended` is a state of its own: no other field hangs on it.
#[derive(Clone, Copy)]
pub struct File {
    pub ended: bool,
    pub upper: u16,
    pub top: usize,
}

impl File {
    /// With an end record.
    #[tactic(auto, unfolding(crate::specs::Reading::ending))]
    fn ending(self) -> Self
        ensures { result ≡ ending self }
    {
        File {
            ended: true,
            ..self
        }
    }

    /// With another upper half.
    #[tactic(auto, unfolding(crate::specs::Reading::rising))]
    fn rising(self, upper: u16) -> Self
        ensures { result ≡ rising self upper }
    {
        File { upper, ..self }
    }

    /// With code of at least so many bytes.
    #[tactic(auto, unfolding(crate::specs::Reading::reaching))]
    fn reaching(self, top: usize) -> Self
        ensures { result ≡ reaching self top }
    {
        if top <= self.top {
            return self;
        }
        File { top, ..self }
    }
}

/// Judges a record of type 00.
fn judge_data(line: &Line, file: File, size: usize, image: &mut Image) -> Result<File, Fault>
    requires summed { Summed line.now.bytes.now line.now.count × (byte_at line.now.bytes.now 7 ≡ 0) }
    requires not_ended { file.ended ≡ false }
    ensures { JudgesFrom size file image.old.cells line.now.bytes.now result image.new.cells }
{
    if line.count == 0 {
        return Ok(file);
    }
    let start = usize::from(file.upper) * 65536 + usize::from(line.offset());
    if start < CODE {
        return Err(Fault::Outside);
    }
    let from = start - CODE;
    let end = from + line.count;
    if end > MOST || end > size {
        return Err(Fault::Outside);
    }
    image.lay(line, from)?;
    Ok(file.reaching(end))
}

/// Judges a record of type 01.
#[tactic(auto, unfolding(crate::specs::Reading::end_judged))]
fn judge_end(line: &Line, file: File) -> Result<File, Fault>
    ensures { result ≡ end_judged line.now.count file }
{
    if line.count != 0 {
        return Err(Fault::OtherType);
    }
    Ok(file.ending())
}

/// Judges a record of type 04.
#[tactic(auto, unfolding(crate::specs::Reading::upper_judged))]
fn judge_upper(line: &Line, file: File) -> Result<File, Fault>
    ensures { result ≡ upper_judged line.now.bytes.now line.now.count file }
{
    if line.count != 2 {
        return Err(Fault::OtherType);
    }
    Ok(file.rising(line.upper()))
}

/// Judges a record.
fn judge_record(line: &Line, file: File, size: usize, image: &mut Image) -> Result<File, Fault>
    requires is_record { IsRecord line.now.bytes.now line.now.count }
    requires not_ended { file.ended ≡ false }
    ensures { JudgesFrom size file image.old.cells line.now.bytes.now result image.new.cells }
{
    if line.sum() != 0 {
        return Err(Fault::WrongSum);
    }
    // The types are the format's own numbers: an enum of them would be made and taken apart at this one place.
    match line.kind() {
        0 => judge_data(line, file, size, image),
        1 => judge_end(line, file),
        4 => judge_upper(line, file),
        _ => Err(Fault::OtherType),
    }
}

/// Judges a line.
pub fn judge_line(bytes: &[u8], file: File, size: usize, image: &mut Image) -> Result<File, Fault>
    ensures { JudgesFrom size file image.old.cells bytes.now result image.new.cells }
{
    if file.ended {
        return Err(Fault::AfterEnd);
    }
    let line = Line::read(bytes).ok_or(Fault::Malformed)?;
    judge_record(&line, file, size, image)
}
