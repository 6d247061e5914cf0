//! The vectors' program: standard input holds test cases, one a line; standard output names those that differ, and their count.
#![tactic(auto)]

fn main(rt: HostRuntime) {
    vector_run::judge_input(&mut rt.stdin(), &rt);
}
