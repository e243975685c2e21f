#![tactic(auto)]

// Module 4: a hash job that keeps the caller's input, not a copy, made, run and asked one at a time.
// Public: every call is total, and its promise settles its whole answer.
mod held_job;

pub use held_job::{HashManyJob, hash_through_job};
pub use refusals::Refusal;
