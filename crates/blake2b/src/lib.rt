#![tactic(auto)]

// Module 3: BLAKE2b with all its parameters, one-shot or piece by piece; its digests are of the crate hash.
// Public: every call is total, and its promise settles its whole answer.
mod one_shot;
mod params;

pub use blake2b_state::State;
pub use hash::Hash;
pub use one_shot::blake2b;
pub use params::Params;
pub use refusals::Refusal;
