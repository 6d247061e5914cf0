//! How a case comes out otherwise than its line says.

use std::fmt;

/// The names of a line's fields, tab-parted as in its header.
static NAMES: &str = "kind\teax\tecx\tedx\tebx\tesp\tebp\tesi\tedi\teip\tflags\tbudget\
    \tcode_len\tcode\tarea_len\tarea\tnumber\tsteps\taddress\
    \teax_out\tecx_out\tedx_out\tebx_out\tesp_out\tebp_out\tesi_out\tedi_out\teip_out\tflags_out\tundefined\tarea_out\tconstants_len\tconstants\
    \txmm0\txmm1\txmm2\txmm3\txmm4\txmm5\txmm6\txmm7\
    \txmm0_out\txmm1_out\txmm2_out\txmm3_out\txmm4_out\txmm5_out\txmm6_out\txmm7_out";

/// How a case comes out otherwise than its line says.
#[derive(Clone, Copy, Debug, PartialEq, Eq)]
pub enum Difference {
    /// First in the field of this number, the first being 1.
    Field(usize),
    /// Not at all: the line is malformed.
    Malformed,
}

impl fmt::Display for Difference {
    fn fmt<W: fmt::Write>(&self, f: &mut fmt::Formatter<W>) -> fmt::Result {
        match self {
            Difference::Field(number) => {
                let name = NAMES
                    .split('\t')
                    .nth(number.saturating_sub(1))
                    .unwrap_or("");
                write!(f, "{name}")
            }
            Difference::Malformed => write!(f, "malformed"),
        }
    }
}
