#![tactic(auto)]

// Module 4: hash jobs over one lent buffer, and a batch of them with each result at its job's own place.
// Public: every call is total, and its promise settles its whole answer.
mod batch;
mod placed;

pub use batch::{MOST_JOBS, hash_many};
pub use placed::HashManyJob;
pub use refusals::{BatchRefusal, Refusal};
