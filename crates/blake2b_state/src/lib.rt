#![tactic(auto)]

// BLAKE2b's state, which starts from words and takes its message piece by piece.
// Its calls are total, and public through the crate blake2b; parameters are not its concern.
mod state;

pub use state::State;
