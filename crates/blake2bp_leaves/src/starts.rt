// The words that the leaves and the root start from, by the lengths that are asked for.
// All nodes have these lengths, fanout 4, depth 2, leaf length 0, and the inner length of a whole state.
ghost use Rattle.std.specs.Prelude.{◌≡◌, map};
ghost use Rattle.definitions.specs.Family.{BLAKE2b};
ghost use Rattle.definitions.specs.Hash.{start};
ghost use Rattle.definitions.specs.Tree.{parameters};
ghost use Rattle.laws_states.specs.Leaves.{leaf_starts, root_start};
ghost use Rattle.blake2bp_leaves.specs.Leaves.{leaf_of};

use crate::leaves::{DEGREE, Leaf};
use portable::ParameterBlock;
use std::array;

fn node_words(hash_length: u8, key_length: u8, offset: u64, depth: u8) -> [u64; 8]
    ensures { result ≡ start BLAKE2b (parameters BLAKE2b 4 hash_length key_length offset depth) }
{
    ParameterBlock {
        digest_length: hash_length,
        key_length,
        fanout: 4,
        depth: 2,
        leaf_length: 0,
        node_offset: offset,
        node_depth: depth,
        inner_length: 64,
        salt: [0; 16],
        personal: [0; 16],
    }
    .words()
}

// The leaf i has the offset i.
pub fn leaf_words(hash_length: u8, key_length: u8) -> [Leaf; DEGREE]
    ensures { result ≡ map leaf_of (leaf_starts BLAKE2b 4 hash_length key_length) }
{
    array::from_fn(|i| Leaf {
        words: node_words(hash_length, key_length, i as u64, 0),
    })
}

pub fn root_words(hash_length: u8, key_length: u8) -> [u64; 8]
    ensures { result ≡ root_start BLAKE2b 4 hash_length key_length }
{
    node_words(hash_length, key_length, 0, 1)
}
