//! Why a hex file is refused.
ghost use Rattle.std.specs.Prelude.{◌≡◌, Some};
ghost use Rattle.intel_hex.specs.Files.{refusal_number, refusal_text};

use std::error::Error;
use std::fmt;

/// Why a hex file is refused: what is wrong with a line of it, or what it lacks.
#[derive(Clone, Copy, Debug, PartialEq, Eq, Hash)]
pub enum Fault {
    /// The line is not exactly one record, from colon to checksum.
    Malformed,
    /// The record's bytes do not add up to 0 modulo 256.
    WrongSum,
    /// The record's type is not 00, 01 or 04, or it is 01 or 04 without just 0 or 2 data bytes.
    OtherType,
    /// A byte lies outside the code area, or above 0001FFFFh.
    Outside,
    /// An address was given before.
    GivenBefore,
    /// The line stands after the end record.
    AfterEnd,
    /// The file has no end record.
    NoEnd,
    /// The file has no data byte.
    NoData,
}

impl Fault {
    /// Its number, from 30 to 37.
    pub fn number(self) -> u32
        ensures { result ≡ refusal_number self }
    {
        match self {
            Fault::Malformed => 30,
            Fault::WrongSum => 31,
            Fault::OtherType => 32,
            Fault::Outside => 33,
            Fault::GivenBefore => 34,
            Fault::NoEnd => 35,
            Fault::AfterEnd => 36,
            Fault::NoData => 37,
        }
    }
}

impl fmt::Display for Fault {
    ghost output = { λ fault. Some (refusal_text fault) };

    fn fmt<W: fmt::Write>(&self, f: &mut fmt::Formatter<W>) -> fmt::Result {
        f.write_str(match self {
            Fault::Malformed => "this line is malformed",
            Fault::WrongSum => "this line's sum is wrong",
            Fault::OtherType =>
                "this line's type is another one, or 01 or 04 without just 0 or 2 data bytes",
            Fault::Outside => "this line has a byte outside the code area or above 0001FFFFh",
            Fault::GivenBefore => "this line has an address that was given before",
            Fault::NoEnd => "there is no end record",
            Fault::AfterEnd => "this line stands after the end record",
            Fault::NoData => "there is no data byte",
        })
    }
}

impl Error for Fault {}

/// A file that is refused: why, and at which line, counted from 1; 0 where no line is at fault.
#[derive(Clone, Copy, Debug, PartialEq, Eq, Hash)]
pub struct Refused {
    pub fault: Fault,
    // No Option: callers are given this very number, 0 included.
    pub line: usize,
}
