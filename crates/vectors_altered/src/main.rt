//! The vectors' program over altered cases: each is named with the field that was altered.
//! A program of its own, since a program has one stored input.
#![tactic(auto)]

fn main(rt: HostRuntime) {
    vector_run::judge_input(&mut rt.stdin(), &rt);
}
