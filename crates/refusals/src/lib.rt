#![tactic(auto)]

// Document 01's refusals with their numbers, the limit of a total, and when a piece lies inside its data.
// The specifications of this crate name the same for contracts.
mod refusal;

ghost use Rattle.std.specs.Prelude.{◌≡◌};
ghost use Rattle.refusals.specs.Numbers.{piece_ok};

pub use refusal::{BatchRefusal, Refusal, number_in};

// Message bytes and key block bytes together are at most this.
pub const LIMIT: u64 = u64::MAX;

// Whether a piece lies inside data of so many bytes.
pub fn piece_ok(start: usize, length: usize, data_length: usize) -> bool
    ensures { result ≡ piece_ok start length data_length }
{
    start < data_length && length <= data_length - start
}
