//! An instruction, read from the left: prefixes, opcode, operand, immediate.
ghost use Rattle.std.specs.Prelude.{◌≡◌, ◌≤◌, length};
ghost use Rattle.grammar.specs.Opcodes.{rule_of};
ghost use Rattle.grammar.specs.Fields.{
  Reads,
  accepted,
  byte_after,
  after_repeat_at,
  after_66_at,
  prefixes_at,
  opcode_at,
  sib_at,
  address_at,
  modrm_at,
  operand_at,
  instruction_at,
};

use crate::cursor::Cursor;
use crate::instruction::{Decoded, Fault};
use crate::parts::{
    allows_66, allows_modrm, allows_repeat, displacement_length, escapes_after, has_modrm, has_sib,
    immediate_length,
};
use crate::rule::{Repeat, Rule};
use crate::table::look_up;

/// What stands before an opcode: 66 or not, and which of F2 and F3.
#[derive(Clone, Copy)]
struct Prefixes {
    narrow: bool,
    repeat: Repeat,
}

// No `Option`: the definition of a decoded instruction, `numbers` in specs/Answers.antt, has 0 for a part that is not there.
/// An operand in numbers. A part that it does not have is 0.
// Apart from `plan::Address`, which lies in a crate above.
#[derive(Clone, Copy)]
struct Operand {
    modrm: u8,
    sib: u8,
    displacement: u32,
}

/// The rule of an opcode, where it takes the prefixes.
#[tactic(auto, unfolding(crate::specs::Decoding::accepts))]
fn accepted(p: Prefixes, opcode: usize) -> Result<Rule, Fault>
    ensures { result ≡ accepted p (rule_of opcode) }
{
    let rule = look_up(opcode).ok_or(Fault::Unknown)?;
    if !allows_repeat(rule.repeats, p.repeat) || !allows_66(rule.size, p.narrow, 0) {
        return Err(Fault::Unknown);
    }
    Ok(rule)
}

impl<'a> Cursor<'a> {
    /// The byte after prefixes.
    fn byte_after(&mut self, p: Prefixes) -> Result<(Prefixes, u8), Fault>
        ensures reads { Reads self.new result (byte_after p self.old) }
        ensures less { length self.new ≤ length self.old }
    {
        let first = self.byte()?;
        Ok((p, first))
    }

    /// What follows F2 or F3: 66, or the opcode.
    #[tactic(auto, unfolding(crate::specs::Fields::after_repeat_at))]
    fn after_repeat(&mut self, repeat: Repeat) -> Result<(Prefixes, u8), Fault>
        ensures reads { Reads self.new result (after_repeat_at repeat self.old) }
        ensures less { length self.new ≤ length self.old }
    {
        match self.byte()? {
            0x66 => self.byte_after(Prefixes {
                narrow: true,
                repeat,
            }),
            first => Ok((
                Prefixes {
                    narrow: false,
                    repeat,
                },
                first,
            )),
        }
    }

    /// What follows 66: F2, F3 or the opcode.
    #[tactic(auto, unfolding(crate::specs::Fields::after_66_at))]
    fn after_66(&mut self) -> Result<(Prefixes, u8), Fault>
        ensures reads { Reads self.new result (after_66_at self.old) }
        ensures less { length self.new ≤ length self.old }
    {
        match self.byte()? {
            0xF2 => self.byte_after(Prefixes {
                narrow: true,
                repeat: Repeat::F2,
            }),
            0xF3 => self.byte_after(Prefixes {
                narrow: true,
                repeat: Repeat::F3,
            }),
            first => Ok((
                Prefixes {
                    narrow: true,
                    repeat: Repeat::Absent,
                },
                first,
            )),
        }
    }

    /// The prefixes, and the opcode's first byte.
    #[tactic(auto, unfolding(crate::specs::Fields::prefixes_at))]
    fn prefixes(&mut self) -> Result<(Prefixes, u8), Fault>
        ensures reads { Reads self.new result (prefixes_at self.old) }
        ensures less { length self.new ≤ length self.old }
    {
        match self.byte()? {
            0x66 => self.after_66(),
            0xF2 => self.after_repeat(Repeat::F2),
            0xF3 => self.after_repeat(Repeat::F3),
            first => Ok((
                Prefixes {
                    narrow: false,
                    repeat: Repeat::Absent,
                },
                first,
            )),
        }
    }

    /// The opcode's number, its first byte being read.
    #[tactic(auto, unfolding(crate::specs::Fields::opcode_at))]
    fn opcode(&mut self, p: Prefixes, first: u8) -> Result<usize, Fault>
        ensures reads { Reads self.new result (opcode_at p first self.old) }
        ensures less { length self.new ≤ length self.old }
    {
        if first != 0x0F {
            return Ok(usize::from(first));
        }
        if !escapes_after(p.narrow, p.repeat) {
            return Err(Fault::Unknown);
        }
        Ok(0x100 + usize::from(self.byte()?))
    }

    /// The SIB byte, where one follows.
    #[tactic(auto, unfolding(crate::specs::Fields::sib_at))]
    fn sib(&mut self, modrm: u8) -> Result<u8, Fault>
        ensures reads { Reads self.new result (sib_at modrm self.old) }
        ensures less { length self.new ≤ length self.old }
    {
        if has_sib(modrm) { self.byte() } else { Ok(0) }
    }

    /// What follows the ModR/M byte.
    #[tactic(auto, unfolding(crate::specs::Fields::address_at))]
    fn address(&mut self, modrm: u8) -> Result<Operand, Fault>
        ensures reads { Reads self.new result (address_at modrm self.old) }
        ensures less { length self.new ≤ length self.old }
    {
        let sib = self.sib(modrm)?;
        let displacement = self.displacement(displacement_length(modrm, sib))?;
        Ok(Operand {
            modrm,
            sib,
            displacement,
        })
    }

    /// The ModR/M byte and what follows it.
    #[tactic(auto, unfolding(crate::specs::Fields::modrm_at))]
    fn modrm(&mut self, rule: Rule, narrow: bool) -> Result<Operand, Fault>
        ensures reads { Reads self.new result (modrm_at rule narrow self.old) }
        ensures less { length self.new ≤ length self.old }
    {
        let m = self.byte()?;
        if !allows_modrm(rule.modrm, m) || !allows_66(rule.size, narrow, m / 8 % 8) {
            return Err(Fault::Unknown);
        }
        self.address(m)
    }

    /// The operand, where there is one.
    #[tactic(auto, unfolding(crate::specs::Fields::operand_at))]
    fn operand(&mut self, rule: Rule, narrow: bool) -> Result<Operand, Fault>
        ensures reads { Reads self.new result (operand_at rule narrow self.old) }
        ensures less { length self.new ≤ length self.old }
    {
        if has_modrm(rule.modrm) {
            return self.modrm(rule, narrow);
        }
        Ok(Operand {
            modrm: 0,
            sib: 0,
            displacement: 0,
        })
    }

    /// An instruction.
    #[tactic(auto, unfolding(crate::specs::Fields::instruction_at, crate::specs::Fields::after_prefixes))]
    pub(crate) fn instruction(&mut self) -> Result<Decoded, Fault>
        ensures { Reads self.new result (instruction_at self.old) }
    {
        let all = self.left();
        let (p, first) = self.prefixes()?;
        let opcode = self.opcode(p, first)?;
        let rule = accepted(p, opcode)?;
        let Operand {
            modrm,
            sib,
            displacement,
        } = self.operand(rule, p.narrow)?;
        let immediate = self.number(immediate_length(rule.immediate, p.narrow, modrm / 8 % 8))?;
        // Field by field: `Decoded` is open to other crates, `Prefixes` and `Operand` are not.
        Ok(Decoded {
            length: all - self.left(),
            opcode,
            narrow: p.narrow,
            repeat: p.repeat,
            modrm,
            sib,
            displacement,
            immediate,
        })
    }
}
