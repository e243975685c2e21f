// The loop over the blocks of an input, serial or at a leaf's stride.
// Its one contract covers both strides, finalizing or not.
ghost use Rattle.std.specs.Prelude.{◌≡◌, ◌&&◌, ◌+◌, ◌*◌, ◌^◌, ◌<◌, length};
ghost use Rattle.definitions.specs.Family.{BLAKE2b};
ghost use Rattle.laws_blocks.specs.Chain.{spare};
ghost use Rattle.laws_blocks.specs.Blocks.{through_blocks};
ghost use Rattle.guts.specs.Guts.{finalizes, is_last_node};
ghost use Rattle.portable.specs.Strides.{padded_blockbytes};

use crate::widths::{BLOCKBYTES, padded_blockbytes};
use compression::compress_block;
use guts::{Finalize, LastNode, Stride, final_block, final_facts, pad_final_block, zeroed};

// What a run of the loop hands back.
#[derive(Clone, Copy)]
pub struct Compressed {
    pub words: [u64; 8],
}

// Where the last of the blocks starts that begin at each multiple of row.
#[tactic(auto, unfolding(laws_blocks::specs::Chain::spare))]
fn final_offset(n: usize, row: usize) -> usize
    requires { 0 < row }
    ensures { result ≡ row * spare row 0 n }
{
    n.saturating_sub(1) / row * row
}

// The blocks of the input at each multiple of the stride, the last of them padded, and flagged where it finalizes. The one call of
// compress_block serves the last block and all others, so that the compiler inlines it. The padded block is a copy that is lent to be
// read alone: the compiler then keeps it by words, and a block takes fewer instructions.
pub fn compress1_loop(
    input: &[u8],
    words: [u64; 8],
    count: u64,
    last_node: LastNode,
    finalize: Finalize,
    stride: Stride,
) -> Compressed
    requires { count + length input.now < 2 ^ 64 }
    ensures { result.words ≡ through_blocks BLAKE2b (padded_blockbytes stride) words count (finalizes finalize) (finalizes finalize && is_last_node last_node) input.now }
{
    let row = padded_blockbytes(stride);
    let mut buf = zeroed::<BLOCKBYTES>();
    pad_final_block(input, final_offset(input.len(), row), &mut buf);
    let padded = buf;
    let fin_last_block = finalize.yes();
    let fin_last_node = fin_last_block && last_node.yes();
    let mut local_words = words;
    let mut local_count = count;
    // No bytes are one empty block.
    let end = input.len().max(1);
    for offset in (0..end).step_by(row) {
        let facts = final_facts(input, offset, BLOCKBYTES, row);
        let last = facts.may_finalize;
        local_count += facts.len as u64;
        local_words = compress_block(
            final_block(input, offset, &padded),
            local_words,
            u128::from(local_count),
            last && fin_last_block,
            last && fin_last_node,
        );
    }
    Compressed { words: local_words }
}
