//! The C interface: a run, a block check and the reading of a hex file, over areas that the caller lends.
#![tactic(auto)]

ghost use Rattle.std.specs.Prelude.{◌≡◌, ◌<◌, ◌^◌, length};
ghost use Rattle.run.specs.Steps.{fixed_to};
ghost use Rattle.run.specs.Runs.{told};
ghost use Rattle.sangolid.specs.Interface.{lent_of, state_of, call_of, Calls, Checks, word_of, Unhexes};

use machine::registers::xmm_of;
use run::{Lent, Ran};

/// What a state or an answer area of another length is refused with; nothing is changed.
// A number, as C gets it: there is nothing else to say of it.
const MISFIT: u32 = 90;

/// The machine in the first eighteen words of the state.
// No `From`, which can't ask that there be 20 words.
#[tactic(auto, unfolding(crate::specs::Interface::lent_of, machine::specs::Lending::xmm_of))]
fn lent(state: &[u32]) -> Lent
    requires { length state.now ≡ 20 }
    ensures { result ≡ lent_of state.now }
{
    // Word by word: with `array::from_fn` the clause stays open.
    let regs = [
        state[0], state[1], state[2], state[3], state[4], state[5], state[6], state[7],
    ];
    let singles = [
        state[10], state[11], state[12], state[13], state[14], state[15], state[16], state[17],
    ];
    Lent {
        regs,
        xmm: xmm_of(singles),
        eip: state[8],
        word: state[9],
    }
}

/// The state after a run: the machine in the same places, then the steps and the address.
#[tactic(auto, unfolding(crate::specs::Interface::state_of, machine::specs::Registers::bits_in, run::specs::Runs::told))]
fn state_of(ran: &Ran) -> [u32; 20]
    requires { ran.now.steps < 2 ^ 32 }
    ensures { result ≡ state_of (told ran.now) }
{
    let m = ran.machine;
    // Word by word, in the order that C knows.
    [
        m.regs[0],
        m.regs[1],
        m.regs[2],
        m.regs[3],
        m.regs[4],
        m.regs[5],
        m.regs[6],
        m.regs[7],
        m.eip,
        m.word,
        m.xmm[0].bits,
        m.xmm[1].bits,
        m.xmm[2].bits,
        m.xmm[3].bits,
        m.xmm[4].bits,
        m.xmm[5].bits,
        m.xmm[6].bits,
        m.xmm[7].bits,
        ran.steps as u32,
        ran.address(),
    ]
}

/// Runs the block from the state, over the lent constants and data, and puts what comes back into the state.
pub fn sangolid_run(
    state: &mut [u32],
    code: &[u8],
    constants: &[u8],
    area: &mut [u8],
    budget: u64,
) -> u32
    ensures { Calls (call_of state.old (fixed_to code.now constants.now) area.old budget) result state.new area.new }
{
    if state.len() != 20 {
        return MISFIT;
    }
    let ran = run::run(lent(state), code, constants, area, budget);
    state.copy_from_slice(&state_of(&ran));
    ran.number()
}

/// Checks the block, marks its starts, and puts the count or the offset into the answer.
// Apart from `sangolid_hex`, as C names them.
pub fn sangolid_check(code: &[u8], marks: &mut [u8], answer: &mut [u32]) -> u32
    ensures { Checks code.now marks.old answer.old result marks.new answer.new }
{
    if answer.len() != 1 {
        return MISFIT;
    }
    match blockcheck::check(code, marks) {
        Ok(count) => {
            answer[0] = count as u32;
            0
        }
        Err(refusal) => {
            answer[0] = refusal.offset() as u32;
            refusal.number()
        }
    }
}

/// A code's length or a line as a word; one that no word holds is FFFFFFFFh, since C gets a number.
#[tactic(auto, unfolding(crate::specs::Interface::word_of))]
fn word_of(n: usize) -> u32
    ensures { result ≡ word_of n }
{
    u32::try_from(n).unwrap_or(u32::MAX)
}

/// Reads a hex file into the code area, and puts the code's length or the line into the answer.
// Apart from `sangolid_check`, as C names them.
pub fn sangolid_hex(text: &[u8], code: &mut [u8], answer: &mut [u32]) -> u32
    ensures { Unhexes text.now code.old answer.old result code.new answer.new }
{
    if answer.len() != 1 {
        return MISFIT;
    }
    match intel_hex::read(text, code) {
        Ok(size) => {
            answer[0] = word_of(size);
            0
        }
        Err(refused) => {
            answer[0] = word_of(refused.line);
            refused.fault.number()
        }
    }
}
