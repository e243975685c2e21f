#![tactic(auto)]

// Module 6: sixteen slots, each for one BLAKE2b state, and batches of pieces for them.
// Public: every call is total, and its promise is a step of the rules in specs/Rules.antt.
mod bank;
mod piece;
mod slot;

pub use bank::{Bank, MOST_RECORDS, SLOTS};
pub use piece::Piece;
pub use refusals::{BatchRefusal, Refusal};
