#![tactic(auto)]

// Module 5: BLAKE2bp, four leaves and a root over them, one-shot or piece by piece. A digest is `hash`'s `Hash`.
// Public: every call is total, and its promise settles its whole answer.
mod counts;
mod one_shot;
mod params;
mod state;

pub use blake2bp_leaves::LeafCount;
pub use counts::MessageCount;
pub use hash::Hash;
pub use one_shot::blake2bp;
pub use params::Params;
pub use refusals::Refusal;
pub use state::State;
