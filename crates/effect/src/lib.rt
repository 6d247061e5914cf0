//! What each instruction does, in place.
#![tactic(auto)]

mod all;
mod arithmetic;
mod branches;
mod moves;
mod singles;
mod stacks;
mod stop;
mod strings;
mod words;

pub use all::execute;
pub use stop::Stop;
