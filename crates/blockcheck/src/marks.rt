//! The mark area.
ghost use Rattle.std.specs.Prelude.{◌≡◌};
ghost use Rattle.blockcheck.specs.Passes.{level_of, levelled, finished};

use crate::Refusal;

/// A mark after the passes.
fn level_of(mark: u8) -> u8
    ensures { result ≡ level_of mark }
{
    u8::from(mark != 0)
}

/// Makes every mark that is not 0 a 1.
#[tactic(auto, unfolding(crate::specs::Passes::levelled))]
fn level(marks: &mut [u8])
    ensures { marks.new ≡ levelled marks.old }
{
    for mark in marks.iter_mut() {
        *mark = level_of(*mark);
    }
}

/// Leaves a 1 at each start of accepted code, and no mark in refused code.
pub fn finish(judged: Result<usize, Refusal>, marks: &mut [u8])
    ensures { marks.new ≡ finished judged marks.old }
{
    match judged {
        Ok(_) => level(marks),
        Err(_) => marks.fill(0),
    }
}
