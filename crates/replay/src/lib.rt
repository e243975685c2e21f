#![tactic(auto)]

// The interpreter of a script's calls on BLAKE2b's parameters, states and digests.
// Test code: its promises are what a session begins with, and of what it is handed what is shown (`value_shown`, `written_shown`,
// `digest_shown`) and which record is left (`record_kept`). Which call a line is, which function of the library it calls, and that a
// session keeps what that hands back, is safe by proof, no more. docs/REPLAY.md has the format.
mod call;
mod digest;
mod params;
mod session;
mod shown;
mod state;

pub use call::Call;
pub use digest::DigestCall;
pub use params::ParamsCall;
pub use session::Session;
pub use shown::{digest_shown, record_kept, value_shown, written_shown};
pub use state::StateCall;
