//! The text of test cases: lines of tab-parted fields, with numbers and bytes in capital hex.
#![tactic(auto)]

pub mod areas;
pub mod fields;
mod hex;
