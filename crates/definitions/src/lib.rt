#![tactic(auto)]

// BLAKE2 as RFC 7693 and the BLAKE2 paper define it: all of it is in specs/.
// This crate has no running code.
