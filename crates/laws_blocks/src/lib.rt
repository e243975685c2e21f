#![tactic(auto)]

// The laws of blocks, chains and shares: it is in specs/ and proofs/.
// This crate has no running code.
