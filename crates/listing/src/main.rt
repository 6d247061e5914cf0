//! The listing program: standard input holds a block's code, standard output its listing.
#![tactic(auto)]

fn main(rt: HostRuntime) {
    listing_text::list_input(&mut rt.stdin(), &rt);
}
