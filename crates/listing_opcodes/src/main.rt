//! The listing program on opcodes after 0F, prefixes, and the longest instruction.
//! A program of its own, since a program has one stored input.
#![tactic(auto)]

fn main(rt: HostRuntime) {
    listing_text::list_input(&mut rt.stdin(), &rt);
}
