#![tactic(auto)]

// Module 2, the block loop of portable.rs over the compression function, and the words that it starts from.
// Internal: the layers above meet what its functions require.
mod blocks;
mod parameters;
mod widths;

pub use blocks::{Compressed, compress1_loop};
pub use parameters::ParameterBlock;
pub use widths::BLOCKBYTES;
