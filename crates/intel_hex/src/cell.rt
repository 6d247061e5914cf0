//! A cell of the image of the code.
ghost use Rattle.std.specs.Prelude.{◌≡◌, None, Some, is_some};
ghost use Rattle.intel_hex.specs.Reading.{filled};

use std::marker::Model;

/// What fills the code where no byte is given.
const GAP: u8 = 0x90;

/// The byte given for an address, if one was; in clauses it is an `Option`.
// One word and no `Option`, so that many cells are copied at once. A blank one is 0: a blank image is zeros, made where it lies.
#[derive(Clone, Copy)]
pub struct Cell {
    word: u16,
}

impl Model for Cell {
    ghost use Rattle.std.specs.Prelude.{◌≡◌, ℕ, Option};
    ghost use Rattle.intel_hex.specs.Cells as C;

    ghost Value = { Option ℕ };

    ghost view = { λ c. C.cell_of c.word };

    ghost invariant = { λ c. C.word_of (C.cell_of c.word) ≡ c.word };

    ghost inverse = { λ v. record { word = C.word_of v } };

    ghost inverse_ok = { λ c own i. record { word = own i } };
}

impl Cell {
    /// With no byte given.
    pub fn blank() -> Self
        ensures { result ≡ None }
    {
        Cell { word: 0 }
    }

    /// With this byte given.
    pub fn given(byte: u8) -> Self
        ensures { result ≡ Some byte }
    {
        Cell {
            word: 0x100 + u16::from(byte),
        }
    }

    /// Whether a byte is given.
    pub fn is_given(self) -> bool
        ensures { result ≡ is_some self }
    {
        self.word != 0
    }

    /// The code's byte.
    pub fn filled(self) -> u8
        ensures { result ≡ filled self }
    {
        if self.is_given() {
            (self.word % 0x100) as u8
        } else {
            GAP
        }
    }
}
