//! The unhex program: standard input holds a hex file, standard output its code.
#![tactic(auto)]

fn main(rt: HostRuntime) {
    unhex_text::unhex_input(&mut rt.stdin(), &rt, &rt.stderr());
}
