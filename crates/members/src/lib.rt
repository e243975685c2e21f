#![tactic(auto)]

// What each member of the family is to its callers, once for all: it is in specs/ and proofs/.
// The one running code is what the calls of a state test, which the members share.
mod bounds;

pub use bounds::{Bounds, Sizes};
