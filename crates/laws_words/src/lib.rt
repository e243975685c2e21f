#![tactic(auto)]

// The laws of words and rounds: it is in specs/ and proofs/.
// This crate has no running code.
