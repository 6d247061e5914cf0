//! Operations that move a value or set flags.
ghost use Rattle.std.specs.Prelude.{◌≡◌};
ghost use Rattle.effect.specs.Moves as M;
ghost use Rattle.effect.specs.Words as W;
ghost use Rattle.machine.specs.Registers.{with_eip};
ghost use Rattle.machine.specs.Answers.{SameAreas};
ghost use Rattle.effect.specs.Does.{Performs, Commits};

use crate::stop::Stop;
use crate::words::{assign, fetch, value, write};
use flags::{Flags, Word};
use machine::memory::Memory;
use machine::registers::{AH, EAX, EDX, Machine};
use plan::Plan;
use sense::{Flagging, Move};
use width::Size;

/// 003 "CMC", "CLC", "STC", "CLD", "STD".
#[inline(always)]
#[tactic(auto, unfolding(crate::specs::Moves::flagged, crate::specs::Moves::with_cf, crate::specs::Moves::with_df))]
fn flagged(op: Flagging, mut f: Flags) -> Flags
    ensures { result ≡ M.flagged op f }
{
    match op {
        Flagging::Cmc => f.cf = !f.cf,
        Flagging::Clc => f.cf = false,
        Flagging::Stc => f.cf = true,
        Flagging::Cld => f.df = false,
        Flagging::Std => f.df = true,
    }
    f
}

/// What the operation does.
#[tactic(auto, unfolding(crate::specs::Moves::flagging_effect, crate::specs::Words::onward, machine::specs::Registers::with_eip, machine::specs::Registers::with_flags))]
pub fn flagging(m: &mut Machine, op: Flagging, p: &Plan)
    ensures { M.flagging_effect op m.old p.now ≡ W.becomes m.new }
{
    let f = flagged(op, m.flags().unpack());
    m.set_flags(Word::pack(f));
    m.set_eip(p.next);
}

/// Half a size.
#[inline(always)]
#[tactic(auto, unfolding(crate::specs::Moves::smaller))]
fn smaller(w: Size) -> Size
    ensures { result ≡ M.smaller w }
{
    match w {
        Size::Byte | Size::Word => Size::Byte,
        Size::Dword => Size::Word,
    }
}

/// v assigned to the destination, and on.
#[inline(always)]
#[tactic(auto, using(crate::proofs::Assign::done_assign), unfolding(crate::specs::Words::onward))]
fn given(m: &mut Machine, p: &Plan, a: u32, v: u32, memory: &mut Memory) -> Result<(), Stop>
    ensures does { Commits (W.assign p.now.destination a (W.onward m.old p.now) p.now.size v) m.old memory.old result m.new memory.new }
    ensures same_areas { SameAreas memory.old memory.new }
{
    write(p.destination, p.size, a, v, memory).map_err(Stop::Write)?;
    m.set_eip(p.next);
    assign(m, p.destination, p.size, v);
    Ok(())
}

/// CMOVcc: SRC if the condition with the number n is met, else what DEST was.
// The condition by its number, as `flags::meets` takes it.
#[inline(always)]
#[tactic(auto, unfolding(crate::specs::Moves::chosen))]
fn chosen(m: &Machine, n: u32, p: &Plan, r: u32) -> u32
    ensures { result ≡ M.chosen n m.now p.now r }
{
    if flags::meets(n, m.flags().unpack()) {
        value(m, p.source, r, p.size)
    } else {
        value(m, p.destination, r, p.size)
    }
}

/// What the operation does; a is the effective address.
#[tactic(auto, using(crate::proofs::Assign::done_assign, crate::proofs::Assign::done_becomes), unfolding(crate::specs::Does::did, crate::specs::Does::got_of, crate::specs::Moves::move_reads, crate::specs::Moves::move_effect, crate::specs::Moves::exchanged, crate::specs::Words::onward, width::specs::Numbers::bit))]
pub fn moves(m: &mut Machine, op: Move, p: &Plan, a: u32, memory: &mut Memory) -> Result<(), Stop>
    ensures does { Performs (M.move_reads op p.now a) (λ r s. M.move_effect op m.old p.now a r) m.old memory.old result m.new memory.new }
    ensures same_areas { SameAreas memory.old memory.new }
{
    let w = p.size;
    match op {
        Move::Mov => {
            let r = fetch(p.source, w, a, memory).map_err(Stop::Read)?;
            given(m, p, a, value(m, p.source, r, w), memory)
        }
        Move::MovZero(from) => {
            let r = fetch(p.source, from, a, memory).map_err(Stop::Read)?;
            given(m, p, a, value(m, p.source, r, from), memory)
        }
        Move::MovSign(from) => {
            let r = fetch(p.source, from, a, memory).map_err(Stop::Read)?;
            let v = from.sign_extended(w, value(m, p.source, r, from));
            given(m, p, a, v, memory)
        }
        Move::Lea => given(m, p, a, a, memory),
        Move::Xchg => {
            let r = fetch(p.destination, w, a, memory).map_err(Stop::Read)?;
            let x = value(m, p.destination, r, w);
            let y = value(m, p.source, r, w);
            write(p.destination, w, a, y, memory).map_err(Stop::Write)?;
            m.set_eip(p.next);
            assign(m, p.source, w, x);
            assign(m, p.destination, w, y);
            Ok(())
        }
        Move::Convert => {
            let from = smaller(w);
            let v = from.sign_extended(w, m.part(from, EAX));
            m.set_eip(p.next);
            m.set_part(w, EAX, v);
            Ok(())
        }
        Move::Spread => {
            let v = w.sign_filled(m.part(w, EAX));
            m.set_eip(p.next);
            m.set_part(w, EDX, v);
            Ok(())
        }
        Move::Bswap => given(
            m,
            p,
            a,
            width::reversed(value(m, p.destination, 0, w)),
            memory,
        ),
        Move::Set(n) => {
            let v = u32::from(flags::meets(n, m.flags().unpack()));
            given(m, p, a, v, memory)
        }
        Move::Lahf => {
            let v = flags::ah(m.flags().unpack());
            m.set_eip(p.next);
            m.set_part(Size::Byte, AH, v);
            Ok(())
        }
        Move::Sahf => {
            let f = flags::with_ah(m.part(Size::Byte, AH), m.flags().unpack());
            m.set_eip(p.next);
            m.set_flags(Word::pack(f));
            Ok(())
        }
        Move::MovIf(n) => {
            let s = fetch(p.source, w, a, memory).map_err(Stop::Read)?;
            given(m, p, a, chosen(m, n, p, s), memory)
        }
    }
}
