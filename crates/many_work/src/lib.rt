#![tactic(auto)]

// The work of a hash job, wherever its input stands: how it starts, its range, its run and its digest.
// Internal: a piece that lies outside its data is for the layers above to refuse.
mod start;
mod work;

pub use start::{begin, has_room};
pub use work::Work;
