//! The instructions that documents 01 and 02 list: the table of opcodes, what stands at a place of the code, an instruction's own bytes.
#![tactic(auto)]

mod bytes;
mod cursor;
mod decode;
pub mod instruction;
mod parts;
pub mod reader;
pub mod relative;
pub mod rows;
pub mod rule;
mod table;
