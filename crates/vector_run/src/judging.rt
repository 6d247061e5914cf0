//! One case: it is run as its line says, and what comes out is compared with what its line says.

ghost use Rattle.std.specs.Prelude.{◌≡◌, ◌+◌, ◌<◌, ◌≤◌, [], ◌∷◌, length, true, false, IfOk, IfErr};
ghost use Rattle.vector_run.specs.Cases.{number_of, state_before, area_fits, pad_to};
ghost use Rattle.vector_run.specs.Findings.{Told, first_other, numbers_from, run_told, answer_told, lent_finding, run_finding, CallFinds, KindFinds, SizedFinds, Finds};

use crate::difference::Difference;
use sangolid::{sangolid_check, sangolid_hex, sangolid_run};
use vector_text::areas::{fill, fits, holds};
use vector_text::fields::{field, has_form, number_32, number_64};

/// What is called: a run, a block check, or the reading of a hex file.
#[derive(Clone, Copy, Debug, PartialEq, Eq)]
pub enum Kind {
    Run,
    Check,
    Hex,
}

/// The state that a run is called with: the machine before, in fields 2 to 11 and 34 to 41.
fn state_before(line: &[u8]) -> [u32; 20]
    ensures { result ≡ state_before line.now }
{
    // Word by word, in the order of the state: two ranges of fields joined would be no plainer.
    [
        number_32(line, 2),
        number_32(line, 3),
        number_32(line, 4),
        number_32(line, 5),
        number_32(line, 6),
        number_32(line, 7),
        number_32(line, 8),
        number_32(line, 9),
        number_32(line, 10),
        number_32(line, 11),
        number_32(line, 34),
        number_32(line, 35),
        number_32(line, 36),
        number_32(line, 37),
        number_32(line, 38),
        number_32(line, 39),
        number_32(line, 40),
        number_32(line, 41),
        0,
        0,
    ]
}

/// Compares numbers with those of the line, from a first field on.
// Line and number apart, as in `vector_text::fields`.
fn compare_numbers(line: &[u8], told: &[u32], first: usize) -> Result<(), Difference>
    requires { first + length told.now ≤ 50 }
    ensures { result ≡ first_other line.now (numbers_from first told.now) }
{
    for (i, &number) in told.iter().enumerate() {
        if u64::from(number) != number_64(line, first + i) {
            return Err(Difference::Field(first + i));
        }
    }
    Ok(())
}

/// Compares the area after with field 31.
fn compare_area(line: &[u8], area: &[u8]) -> Result<(), Difference>
    ensures { result ≡ first_other line.now (Told.the_area 31 area.now ∷ []) }
{
    if holds(area, field(line, 31)) {
        Ok(())
    } else {
        Err(Difference::Field(31))
    }
}

/// Compares what a run gives back, its number and the state, and the data after: number, steps and address from field 17 on,
/// registers, EIP and flags from field 20 on, the singles from field 42 on.
fn compare_run(line: &[u8], number: u32, state: &[u32; 20], area: &[u8]) -> Result<(), Difference>
    ensures { result ≡ first_other line.now (run_told number state.now area.now) }
{
    compare_numbers(line, &[number, state[18], state[19]], 17)?;
    compare_numbers(line, &state[..10], 20)?;
    compare_numbers(line, &state[10..18], 42)?;
    compare_area(line, area)
}

/// Compares what a check or a hex file answers, and the marks or the code area after.
fn compare_answer(line: &[u8], number: u32, value: u32, area: &[u8]) -> Result<(), Difference>
    ensures { result ≡ first_other line.now (answer_told number value area.now) }
{
    compare_numbers(line, &[number], 17)?;
    compare_numbers(line, &[value], 19)?;
    compare_area(line, area)
}

/// Fills constants as long as the line says, runs the block over areas as long as it says, and compares.
fn judge_lent(
    line: &[u8],
    code: &[u8],
    constants: &mut [u8],
    area: &mut [u8],
) -> Result<(), Difference>
    ensures { result ≡ lent_finding line.now code.now (pad_to line.now 33 (length constants.old)) area.old }
{
    fill(constants, field(line, 33));
    let mut state = state_before(line);
    let number = sangolid_run(&mut state, code, constants, area, number_64(line, 12));
    compare_run(line, number, &state, area)
}

/// Judges a run, over constants as long as the line says.
fn judge_run(line: &[u8], code: &[u8], area: &mut [u8]) -> Result<(), Difference>
    ensures { result ≡ run_finding line.now code.now area.old }
{
    let size = size_in(line, 32)?;
    let mut constants = room();
    judge_lent(line, code, &mut constants[..size], area)
}

/// Calls a check of a block or the reading of a hex file, over areas as long as the line says, and compares what it answers.
fn judge_answer<F: FnOnce(&[u8], &mut [u8], &mut [u32]) -> u32>(
    line: &[u8],
    code: &[u8],
    area: &mut [u8],
    call: F,
) -> Result<(), Difference>
    requires { F.IsAlwaysCallable call }
    ensures { CallFinds (F.post call) line.now code.now area.old result }
{
    let mut answer = [0];
    let number = call(code, area, &mut answer);
    compare_answer(line, number, answer[0], area)
}

/// Fills areas as long as the line says, and judges the case by its kind.
fn judge_filled(line: &[u8], kind: Kind, code: &mut [u8], area: &mut [u8]) -> Result<(), Difference>
    ensures { KindFinds kind line.now (pad_to line.now 14 (length code.old)) (pad_to line.now 16 (length area.old)) result }
{
    fill(code, field(line, 14));
    fill(area, field(line, 16));
    match kind {
        Kind::Run => judge_run(line, code, area),
        Kind::Check => judge_answer(line, code, area, sangolid_check),
        Kind::Hex => judge_answer(line, code, area, sangolid_hex),
    }
}

/// Room for an area of a line: some bytes more than a run or a check may have. An array, since `judge` cannot fail and a `Vec` can.
fn room() -> [u8; 65540]
    ensures { 65540 ≡ length result }
{
    [0; 65540]
}

/// The size in the field of a number; malformed if there is no room for it, or the bytes in the next field don't fit it.
// Line and number apart, as in `vector_text::fields`.
#[tactic(auto, unfolding(crate::specs::Cases::area_fits, crate::specs::Cases::number_of))]
fn size_in(line: &[u8], number: usize) -> Result<usize, Difference>
    requires { number < 33 }
    ensures fits { IfOk result (λ size. (area_fits line.now number ≡ true) × (size ≡ number_of line.now number) × (size ≤ 65540)) }
    ensures unfit { IfErr result (λ difference. (area_fits line.now number ≡ false) × (difference ≡ Difference.Malformed)) }
{
    let size = number_64(line, number);
    if size <= 65540 && fits(field(line, number + 1), size as usize) {
        Ok(size as usize)
    } else {
        Err(Difference::Malformed)
    }
}

/// Judges a case of a kind, over areas as long as its line says.
fn judge_sized(line: &[u8], kind: Kind) -> Result<(), Difference>
    ensures { SizedFinds kind line.now result }
{
    let code_size = size_in(line, 13)?;
    let area_size = size_in(line, 15)?;
    let mut code = room();
    let mut area = room();
    judge_filled(line, kind, &mut code[..code_size], &mut area[..area_size])
}

/// Judges the case of a line.
pub fn judge(line: &[u8]) -> Result<(), Difference>
    ensures { Finds line.now result }
{
    if has_form(line, b"rnnnnnnnnnnwnbnbnwnnnnnnnnnnnnbnbnnnnnnnnnnnnnnnn") {
        judge_sized(line, Kind::Run)
    } else if has_form(line, b"c-----------nbnbn-n-----------b------------------") {
        judge_sized(line, Kind::Check)
    } else if has_form(line, b"h-----------nbnbn-n-----------b------------------") {
        judge_sized(line, Kind::Hex)
    } else {
        Err(Difference::Malformed)
    }
}
