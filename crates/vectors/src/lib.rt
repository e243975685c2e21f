#![tactic(auto)]

// The definitions held against outside digests and document 01's worked cases: it is in specs/ and proofs/.
// This crate has no running code.
