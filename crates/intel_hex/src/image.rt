//! The image of the code while a file is read.
ghost use Rattle.std.specs.Prelude.{◌≡◌, List, ℕ, ◌+◌, ◌≤◌, length, replicate, None};
ghost use Rattle.intel_hex.specs.Files.{given_from, code_base};
ghost use Rattle.intel_hex.specs.Reading.{bytes_at, Shows, Lays, Copied};

use crate::cell::Cell;
use crate::fault::Fault;
use crate::line::Line;

/// The most bytes of code: one for each address from 00010000h to 0001FFFFh.
// Of its own, as `CODE` in `judging`: the hex reader stands apart from the emulator, whose `blockcheck` has both.
pub const MOST: usize = 65536;

/// The byte given for each address from 00010000h to 0001FFFFh, if one was.
// A fixed array: `read` cannot fail for want of memory, and asks for none.
#[derive(Drop)]
pub struct Image {
    cells: [Cell; MOST],
}

impl Image {
    /// With no byte given.
    pub fn blank() -> Self
        ensures { result.cells ≡ replicate 65536 None }
    {
        Image {
            cells: [Cell::blank(); MOST],
        }
    }

    /// Lays the data bytes of a record from an offset on. Refused where one of their addresses was given before.
    pub fn lay(&mut self, line: &Line, from: usize) -> Result<(), Fault>
        requires { from + line.now.count ≤ 65536 }
        ensures { (bytes : List (ℕ × ℕ)) → Shows bytes self.old.cells → Lays (given_from (code_base + from) (bytes_at line.now.bytes.now 9 line.now.count)) bytes result self.new.cells }
    {
        // By place, for the same reason as in `copy_to`.
        for k in 0..line.count {
            let byte = line.data(k);
            let given = self.cells[from + k];
            if given.is_given() {
                return Err(Fault::GivenBefore);
            }
            self.cells[from + k] = Cell::given(byte);
        }
        Ok(())
    }

    /// Copies the first bytes into an area of the code, as many as that has.
    pub fn copy_to(&self, code: &mut [u8])
        requires { length code.old ≤ 65536 }
        ensures { Copied self.now.cells code.old (length code.old) code.new }
    {
        // By place, for nothing is known of what a zip of iter_mut writes.
        for i in 0..code.len() {
            code[i] = self.cells[i].filled();
        }
    }
}
