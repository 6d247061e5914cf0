//! Accepted code never meets an unknown or cut-off instruction: a theorem over the step and the run, with no code of its own.
#![tactic(auto)]
