// The four leaves: blocks are dealt to them in turn, and at the end the root hashes their whole states.
// A leaf runs through one call of the block loop, at the parallel stride.
ghost use Rattle.std.specs.Prelude.{◌≡◌, ◌&&◌, ◌+◌, ◌*◌, ◌^◌, ◌<◌, length, map};
ghost use Rattle.definitions.specs.Family.{BLAKE2b};
ghost use Rattle.laws_blocks.specs.Chain.{through};
ghost use Rattle.laws_states.specs.Deal.{each, leaf_through, dealt, finished};
ghost use Rattle.laws_states.specs.Leaves.{rooted};
ghost use Rattle.guts.specs.Guts.{finalizes, is_last_node};
ghost use Rattle.hash.specs.Answers.{as_hash_answer};
ghost use Rattle.hash.specs.Hash.{made_from};
ghost use Rattle.blake2bp_leaves.specs.Leaves.{on_leaf, state_of, words_of};

use crate::counts::LeafCount;
use guts::{Finalize, LastNode, Stride, offset_slice};
use hash::Hash;
use portable::compress1_loop;
use refusals::Refusal;
use std::array;
use words::write_words;

// How many leaves there are, and the bytes of a block.
pub const DEGREE: usize = 4;

pub const BLOCKBYTES: usize = 128;

#[derive(Clone, Copy)]
pub struct Leaf {
    pub words: [u64; 8],
}

impl Leaf {
    // From its first block of the input on: the one place where an engine runs it.
    fn run(self, input: &[u8], count: LeafCount, last_node: LastNode, finalize: Finalize) -> Leaf
        requires { count.0 + length input.now < 2 ^ 64 }
        ensures { result ≡ through 128 on_leaf 512 self count.0 (finalizes finalize) (finalizes finalize && is_last_node last_node) input.now }
    {
        let run = compress1_loop(
            input,
            self.words,
            count.0,
            last_node,
            finalize,
            Stride::Parallel,
        );
        let words = run.words;
        Leaf { words }
    }

    // The bytes of its state, whole.
    fn state(self) -> [u8; 64]
        ensures { result ≡ state_of self }
    {
        write_words(self.words)
    }
}

// Every leaf, each from its own first block on: the last leaf is the last node where the run finalizes.
fn run_leaves(
    leaves: [Leaf; DEGREE],
    input: &[u8],
    count: LeafCount,
    finalize: Finalize,
) -> [Leaf; DEGREE]
    requires { count.0 + length input.now < 2 ^ 64 }
    ensures { result ≡ each (leaf_through 128 on_leaf 4 count.0 (finalizes finalize) input.now) 0 4 leaves }
{
    array::from_fn(|i| {
        let rest = offset_slice(input, i * BLOCKBYTES);
        leaves[i].run(rest, count, LastNode::from(i + 1 == DEGREE), finalize)
    })
}

// Whole rows, a block of each to each leaf; none of them is a last one.
pub fn compress_to_leaves(
    leaves: [Leaf; DEGREE],
    input: &[u8],
    count: LeafCount,
    rows: usize,
) -> [Leaf; DEGREE]
    requires { (0 < rows) × (length input.now ≡ 512 * rows) × (count.0 + length input.now < 2 ^ 64) }
    ensures { result ≡ dealt 128 on_leaf 4 leaves count.0 input.now rows }
{
    run_leaves(leaves, input, count, Finalize::No)
}

// All that the leaves still get: a leaf that gets nothing ends all the same.
pub fn finish_leaves(leaves: [Leaf; DEGREE], input: &[u8], count: LeafCount) -> [Leaf; DEGREE]
    requires { count.0 + length input.now < 2 ^ 64 }
    ensures { result ≡ finished 128 on_leaf 4 leaves count.0 input.now }
{
    run_leaves(leaves, input, count, Finalize::Yes)
}

// The root hashes the leaves' states, one behind the other and whole, whatever digest length is asked for, and no key block.
// It is a last node.
pub fn finalize_root_words(
    leaves: [Leaf; DEGREE],
    root_words: [u64; 8],
    hash_length: u8,
) -> Result<Hash, Refusal>
    ensures { as_hash_answer result ≡ made_from (rooted BLAKE2b root_words (map words_of leaves)) hash_length }
{
    let states = leaves.map(Leaf::state);
    let run = compress1_loop(
        states.as_flattened(),
        root_words,
        0,
        LastNode::Yes,
        Finalize::Yes,
        Stride::Serial,
    );
    Hash::from_state(&write_words(run.words), hash_length as usize)
}
