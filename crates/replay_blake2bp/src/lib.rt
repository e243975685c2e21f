#![tactic(auto)]

// The interpreter of a script's calls on BLAKE2bp.
// Test code: safe by proof, with no promise but what a session begins with. docs/REPLAY.md has the format.
mod call;
mod session;

pub use call::{Call, ParamsCall, StateCall};
pub use session::Session;
