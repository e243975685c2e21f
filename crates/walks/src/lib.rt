#![tactic(auto)]

// Laws of the program logic, in proofs/: what settles an answer, and what proofs that walk the code by hand share.
// This crate has no running code.
