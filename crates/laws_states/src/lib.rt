#![tactic(auto)]

// The laws of states, buffering and trees: it is in specs/ and proofs/.
// This crate has no running code.
