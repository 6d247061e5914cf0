//! The listing program on 65,537 bytes.
//! A program of its own, since a program has one stored input.
#![tactic(auto)]

fn main(rt: HostRuntime) {
    listing_text::list_input(&mut rt.stdin(), &rt);
}
