//! The lent areas: data, read and written, and constants, which are only read.
ghost use Rattle.std.specs.Prelude.{◌≡◌, ◌+◌, ◌≤◌, length, OnErr, IfOk};
ghost use Rattle.std.proofs.lemmas.List.Edits.{sets};
ghost use Rattle.width.specs.Sizes.{bytes};
ghost use Rattle.width.specs.LittleEndian.{little_endian, bytes_of};
ghost use Rattle.machine.specs.Memory.{place_of, first_outside, first_unread, read_of, load_of, stored_of, store_of};
ghost use Rattle.machine.specs.Answers.{shown, loaded_as, stored_as, SameAreas};

use width::Size;

/// An access that no area holds, by its first byte outside.
#[derive(Clone, Copy, Debug, PartialEq, Eq)]
pub struct Outside {
    pub address: u32,
}

/// Where data lies, and upward.
const DATA: u32 = 0x0010_0000;

/// Where constants lie, and upward.
const CONSTANTS: u32 = 0x0020_0000;

/// Where an access of n bytes at address a begins in an area of so many bytes at a base.
#[inline(always)]
#[tactic(auto, unfolding(crate::specs::Memory::place_of, crate::specs::Memory::holds))]
fn locate(base: u32, len: usize, n: usize, a: u32) -> Option<usize>
    ensures { result ≡ place_of base len n a }
{
    let at = a.checked_sub(base)? as usize;
    if at <= len.checked_sub(n)? {
        Some(at)
    } else {
        None
    }
}

/// The first address from a on that is not in an area of so many bytes at a base.
#[tactic(auto, unfolding(crate::specs::Memory::first_outside, crate::specs::Memory::place_of, crate::specs::Memory::holds))]
fn first_outside(base: u32, len: usize, a: u32) -> u32
    ensures { result ≡ first_outside base len a }
{
    match locate(base, len, 1, a) {
        Some(_) => base.wrapping_add((len % 0x1_0000_0000) as u32),
        None => a,
    }
}

/// The number of as many bytes as the size has, the low byte first.
#[inline(always)]
#[tactic(auto, using(crate::proofs::Access::number_of_one, crate::proofs::Access::number_of_two, crate::proofs::Access::number_of_four), unfolding(width::specs::Sizes::bytes))]
fn number(part: &[u8], w: Size) -> u32
    requires { length part.now ≡ bytes w }
    ensures { result ≡ little_endian part.now }
{
    match w {
        Size::Byte => u32::from(part[0]),
        Size::Word => u32::from(u16::from_le_bytes([part[0], part[1]])),
        Size::Dword => u32::from_le_bytes([part[0], part[1], part[2], part[3]]),
    }
}

/// The bytes of a number of the size, the low byte first, from a place on.
// An area and a place, as the clause has them: it is over the whole area.
#[inline(always)]
#[tactic(auto, unfolding(width::specs::Sizes::bytes, width::specs::LittleEndian::bytes_of))]
fn put(area: &mut [u8], at: usize, w: Size, v: u32)
    requires { at + bytes w ≤ length area.old }
    ensures { area.new ≡ sets area.old at (bytes_of (bytes w) v) }
{
    // Byte by byte: with `to_le_bytes` and `copy_from_slice` an arm's clause stays open.
    match w {
        Size::Byte => area[at] = (v & 0xFF) as u8,
        Size::Word => {
            area[at] = (v % 0x100) as u8;
            area[at + 1] = (v / 0x100 % 0x100) as u8;
        }
        Size::Dword => {
            area[at] = (v % 0x100) as u8;
            area[at + 1] = (v / 0x100 % 0x100) as u8;
            area[at + 2] = (v / 0x1_0000 % 0x100) as u8;
            area[at + 3] = (v / 0x100_0000 % 0x100) as u8;
        }
    }
}

/// The first address outside for a read at a: of the area that holds the byte there; where neither does, a itself.
#[tactic(auto, unfolding(crate::specs::Memory::first_unread, crate::specs::Memory::place_of, crate::specs::Memory::data_base, crate::specs::Memory::constants_base))]
fn first_unread(constants: &[u8], area: &[u8], a: u32) -> u32
    ensures { result ≡ first_unread constants.now area.now a }
{
    match locate(DATA, area.len(), 1, a) {
        Some(_) => first_outside(DATA, area.len(), a),
        None => first_outside(CONSTANTS, constants.len(), a),
    }
}

/// The bytes of a read of n bytes at address a, as a part of whichever area holds all of them.
// Constants and data apart, here and in `load`: neither needs to be lent for writing.
#[inline(always)]
#[tactic(auto, unfolding(crate::specs::Memory::read_of, crate::specs::Memory::part_of, crate::specs::Memory::place_of, crate::specs::Memory::holds, crate::specs::Memory::data_base, crate::specs::Memory::constants_base))]
pub fn read<'a>(constants: &'a [u8], area: &'a [u8], n: usize, a: u32) -> Result<&'a [u8], Outside>
    ensures bytes { read_of constants.now area.now n a ≡ shown (λ part. part.now) result }
    ensures long { IfOk result (λ part. length part.now ≡ n) }
{
    if let Some(at) = locate(DATA, area.len(), n, a) {
        return Ok(&area[at..at + n]);
    }
    if let Some(at) = locate(CONSTANTS, constants.len(), n, a) {
        return Ok(&constants[at..at + n]);
    }
    Err(Outside {
        address: first_unread(constants, area, a),
    })
}

/// A load of a number of the size.
#[inline(always)]
#[tactic(auto, unfolding(crate::specs::Memory::load_of, crate::specs::Memory::numbered))]
pub fn load(constants: &[u8], area: &[u8], w: Size, a: u32) -> Result<u32, Outside>
    ensures { load_of constants.now area.now w a ≡ loaded_as result }
{
    let part = read(constants, area, w.bytes(), a)?;
    Ok(number(part, w))
}

/// A store of a number of the size, to data only; refused, it changes nothing.
#[inline(always)]
#[tactic(auto, unfolding(crate::specs::Memory::stored_of, crate::specs::Memory::store_of, crate::specs::Memory::place_of, crate::specs::Memory::holds, crate::specs::Memory::data_base))]
pub fn store(area: &mut [u8], w: Size, a: u32, v: u32) -> Result<(), Outside>
    ensures answer { stored_of area.old w a ≡ stored_as result }
    ensures data { area.new ≡ store_of area.old w a v }
    ensures err { OnErr result (area.new ≡ area.old) }
{
    let Some(at) = locate(DATA, area.len(), w.bytes(), a) else {
        return Err(Outside {
            address: first_outside(DATA, area.len(), a),
        });
    };
    put(area, at, w, v);
    Ok(())
}

/// The areas that a run is lent: constants at 00200000h and data at 00100000h, upward.
#[derive(Debug, Drop)]
pub struct Memory<'a> {
    pub constants: &'a [u8],
    pub area: &'a mut [u8],
}

impl<'a> Memory<'a> {
    /// The bytes of a read of n bytes at address a, as a part of whichever area holds all of them.
    #[inline(always)]
    pub fn read(&self, n: usize, a: u32) -> Result<&[u8], Outside>
        ensures bytes { read_of self.now.constants.now self.now.area.now n a ≡ shown (λ part. part.now) result }
        ensures long { IfOk result (λ part. length part.now ≡ n) }
    {
        read(self.constants, self.area, n, a)
    }

    /// A load of a number of the size.
    // A call of its own: written out at each use it would take 3 KB of ROM more.
    #[inline(never)]
    pub fn load(&self, w: Size, a: u32) -> Result<u32, Outside>
        ensures { load_of self.now.constants.now self.now.area.now w a ≡ loaded_as result }
    {
        load(self.constants, self.area, w, a)
    }

    /// A store of a number of the size, to data only; refused, it changes nothing.
    pub fn store(&mut self, w: Size, a: u32, v: u32) -> Result<(), Outside>
        ensures answer { stored_of self.old.area.now w a ≡ stored_as result }
        ensures data { self.new.area.now ≡ store_of self.old.area.now w a v }
        ensures err { OnErr result (self.new.area.now ≡ self.old.area.now) }
        ensures same_areas { SameAreas self.old self.new }
    {
        store(self.area, w, a, v)
    }
}
