#![tactic(auto)]

// Module 1, the helpers of guts.rs: what a run of the block loop is told, the block at an offset, and bytes stored in a buffer.
// A block is made ready, then handed back, and its facts are asked for: three calls for the Rust's one. Nothing here has a width:
// a block is as long as its buffer. Internal.
mod storing;

ghost use Rattle.std.specs.Prelude.{◌≡◌, length, drop};
ghost use Rattle.laws_blocks.specs.Offsets.{padded_buffer, final_block};
ghost use Rattle.guts.specs.Guts.{finalizes, is_last_node, final_facts};

pub use storing::{clear, padded, store, zeroed};

#[derive(Clone, Copy)]
pub enum Finalize {
    Yes,
    No,
}

impl From<bool> for Finalize {
    ghost from_gives = { λ yes made. finalizes made ≡ yes };

    fn from(yes: bool) -> Self {
        if yes { Finalize::Yes } else { Finalize::No }
    }
}

impl Finalize {
    pub fn yes(self) -> bool
        ensures { result ≡ finalizes self }
    {
        matches!(self, Finalize::Yes)
    }
}

#[derive(Clone, Copy)]
pub enum LastNode {
    Yes,
    No,
}

impl From<bool> for LastNode {
    ghost from_gives = { λ yes made. is_last_node made ≡ yes };

    fn from(yes: bool) -> Self {
        if yes { LastNode::Yes } else { LastNode::No }
    }
}

impl LastNode {
    pub fn yes(self) -> bool
        ensures { result ≡ is_last_node self }
    {
        matches!(self, LastNode::Yes)
    }
}

// What lies between two blocks of a run.
#[derive(Clone, Copy)]
pub enum Stride {
    // Nothing: a block follows the other.
    Serial,
    // The blocks of the other leaves.
    Parallel,
}

// The input from the offset on: nothing where that is past the end.
pub fn offset_slice(input: &[u8], offset: usize) -> &[u8]
    ensures { result.now ≡ drop offset input.now }
{
    input.get(offset..).unwrap_or(&[])
}

// Makes the buffer ready for final_block: the bytes that are left at the offset and zeros, where a block is not left.
#[tactic(auto, using(laws_words::proofs::Stores::stored_padded), unfolding(laws_blocks::specs::Offsets::padded_buffer))]
pub fn pad_final_block(input: &[u8], offset: usize, buffer: &mut [u8])
    ensures { buffer.new ≡ padded_buffer (length buffer.old) input.now offset buffer.old }
{
    let rest = offset_slice(input, offset);
    if rest.len() < buffer.len() {
        clear(buffer);
        store(buffer, 0, rest);
    }
}

// The block at an offset: the caller's own bytes, or the buffer that was padded for it.
#[tactic(auto, unfolding(laws_blocks::specs::Offsets::final_block))]
pub fn final_block<'a>(input: &'a [u8], offset: usize, buffer: &'a [u8]) -> &'a [u8]
    ensures { result.now ≡ final_block (length buffer.now) input.now offset buffer.now }
{
    let rest = offset_slice(input, offset);
    if rest.len() < buffer.len() {
        buffer
    } else {
        &rest[..buffer.len()]
    }
}

// Of the block at an offset: how many of its bytes are the input's, and whether the input ends before the next one.
#[derive(Clone, Copy)]
pub struct FinalFacts {
    pub len: usize,
    pub may_finalize: bool,
}

// A block has `block` bytes, and the next one starts `row` bytes behind its start.
pub fn final_facts(input: &[u8], offset: usize, block: usize, row: usize) -> FinalFacts
    ensures { result ≡ final_facts block row input.now offset }
{
    let rest = offset_slice(input, offset);
    FinalFacts {
        len: block.min(rest.len()),
        may_finalize: rest.len() <= row,
    }
}
