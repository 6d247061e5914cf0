//! No step depends on a flag that 003 leaves undefined after it, and such a flag comes out clear: theorems over the step, with no code of their own.
#![tactic(auto)]
