#![tactic(auto)]

// The tree below BLAKE2bp: four leaves that are dealt blocks, and the root over their states, from plain numbers and bytes.
// Internal: a caller keeps the limits that the functions require.
mod counts;
mod leaves;
mod starts;

pub use counts::LeafCount;
pub use leaves::{
    BLOCKBYTES, DEGREE, Leaf, compress_to_leaves, finalize_root_words, finish_leaves,
};
pub use starts::{leaf_words, root_words};
