#![tactic(auto)]

// The interpreter of a script's calls on hash jobs and a bank.
// Test code: safe by proof, with no promise but what a session begins with. docs/REPLAY.md has the format.
mod call;
mod place;
mod session;

pub use call::{BankCall, Call, JobCall};
pub use place::Place;
pub use session::Session;
