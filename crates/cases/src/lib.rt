//! Document 01's marked cases as one table with one proof: it stands in specs/ and proofs/, and there is nothing to run.
#![tactic(auto)]
