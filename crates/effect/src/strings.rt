//! String operations: one round, and what a repeat prefix makes of it.
ghost use Rattle.std.specs.Prelude.{◌≡◌, ◌&&◌, ◌||◌, ◌==◌};
ghost use Rattle.effect.specs.Strings as S;
ghost use Rattle.effect.specs.Branches as B;
ghost use Rattle.machine.specs.Answers.{SameAreas};
ghost use Rattle.effect.specs.Does.{Does};
ghost use Rattle.effect.specs.Rounds.{after, round_of, string_of};

use crate::branches::counted;
use crate::stop::Stop;
use arith::Binary;
use flags::Word;
use grammar::rule::Repeat;
use machine::memory::Memory;
use machine::registers::{EAX, ECX, EDI, ESI, Machine};
use plan::Plan;
use sense::Strings;
use width::Size;

/// A register moved on by one element: up with DF clear, down with DF set.
#[tactic(auto, unfolding(crate::specs::Strings::passed, width::specs::Numbers::rest, width::specs::Numbers::residue, width::specs::Sizes::modulus, width::specs::Sizes::bits, width::specs::Sizes::bytes))]
fn pass(m: &mut Machine, w: Size, i: u32)
    ensures { m.new ≡ S.passed m.old w i }
{
    let size = w.bytes() as u32;
    let a = m.register(i);
    let on = if m.flags().unpack().df {
        a.wrapping_sub(size)
    } else {
        a.wrapping_add(size)
    };
    m.set_register(i, on);
}

/// One round; EIP stays.
#[tactic(auto, using(crate::proofs::Assign::done_becomes), unfolding(crate::specs::Rounds::round_of, crate::specs::Does::did, crate::specs::Does::done, crate::specs::Does::got_of, crate::specs::Strings::round_reads, crate::specs::Strings::round, crate::specs::Words::writes, crate::specs::Words::becomes, crate::specs::Performing::committed, crate::specs::Performing::stored))]
fn round(m: &mut Machine, op: Strings, w: Size, memory: &mut Memory) -> Result<(), Stop>
    ensures does { Does (round_of memory.old.constants.now memory.old.area.now op m.old w) m.old memory.old.area.now result m.new memory.new.area.now }
    ensures same_areas { SameAreas memory.old memory.new }
{
    let from = m.register(ESI);
    let to = m.register(EDI);
    match op {
        Strings::Movs => {
            let moved = memory.load(w, from).map_err(Stop::Read)?;
            memory.store(w, to, moved).map_err(Stop::Write)?;
            pass(m, w, ESI);
            pass(m, w, EDI);
        }
        Strings::Cmps => {
            let x = memory.load(w, from).map_err(Stop::Read)?;
            let y = memory.load(w, to).map_err(Stop::Read)?;
            let c = arith::binary_worked(Binary::Cmp, w, x, y, m.flags().bits());
            pass(m, w, ESI);
            pass(m, w, EDI);
            m.set_flags(Word::of_bits(c.word));
        }
        Strings::Stos => {
            memory.store(w, to, m.part(w, EAX)).map_err(Stop::Write)?;
            pass(m, w, EDI);
        }
        Strings::Lods => {
            let r = memory.load(w, from).map_err(Stop::Read)?;
            m.set_part(w, EAX, r);
            pass(m, w, ESI);
        }
        Strings::Scas => {
            let y = memory.load(w, to).map_err(Stop::Read)?;
            let c = arith::binary_worked(Binary::Cmp, w, m.part(w, EAX), y, m.flags().bits());
            pass(m, w, EDI);
            m.set_flags(Word::of_bits(c.word));
        }
    }
    Ok(())
}

/// The repetition is over with no elements left; of CMPS and SCAS also with ZF clear under F3 and set under F2.
#[tactic(auto, unfolding(crate::specs::Strings::over, crate::specs::Strings::compares))]
fn over(again: Repeat, op: Strings, left: u32, zf: bool) -> bool
    ensures { result ≡ S.over again op left zf }
{
    let compares = matches!(op, Strings::Cmps | Strings::Scas);
    match again {
        Repeat::Absent => true,
        Repeat::F2 => left == 0 || compares && zf,
        Repeat::F3 => left == 0 || compares && !zf,
    }
}

/// Whether a repetition has nothing to do: a prefix, and ECX 0.
#[inline(always)]
#[tactic(auto, unfolding(crate::specs::Strings::idle))]
fn idle(m: &Machine, again: Repeat) -> bool
    ensures { result ≡ S.idle again m.now }
{
    matches!(again, Repeat::F2 | Repeat::F3) && m.register(ECX) == 0
}

/// After a round: on; of a repetition ECX less 1, and on where it is over.
#[tactic(auto, unfolding(crate::specs::Rounds::after, crate::specs::Strings::repeated, crate::specs::Words::onward, machine::specs::Registers::with_eip, machine::specs::Registers::with_register))]
fn end_round(m: &mut Machine, op: Strings, p: &Plan)
    ensures { m.new ≡ after p.now.repeat op p.now m.old }
{
    match p.repeat {
        Repeat::Absent => m.set_eip(p.next),
        Repeat::F2 | Repeat::F3 => {
            let left = counted(m);
            m.set_register(ECX, left);
            if over(p.repeat, op, left, m.flags().unpack().zf) {
                m.set_eip(p.next);
            }
        }
    }
}

/// What the operation does.
#[tactic(auto, using(crate::proofs::Rounds::idles, crate::proofs::Rounds::rounds), unfolding(crate::specs::Words::onward))]
pub fn string(m: &mut Machine, op: Strings, p: &Plan, memory: &mut Memory) -> Result<(), Stop>
    ensures does { Does (string_of memory.old.constants.now memory.old.area.now op m.old p.now) m.old memory.old.area.now result m.new memory.new.area.now }
    ensures same_areas { SameAreas memory.old memory.new }
{
    if idle(m, p.repeat) {
        m.set_eip(p.next);
        return Ok(());
    }
    round(m, op, p.size, memory)?;
    end_round(m, op, p);
    Ok(())
}
