#![tactic(auto)]

// What a program in C or Rust links to compare the compression of one block, at counts that no message reaches.
// Test code: safe by proof, with no promise of its own. It stands apart from exports, where a second caller of compress_block would
// keep the compiler from inlining it.
use compression::compress_block;

#[unsafe(no_mangle)]
pub extern "C" fn sumpillow_compress_block(
    block: &[u8; 128],
    words: &mut [u64; 8],
    count_low: u64,
    count_high: u64,
    last_block: bool,
    last_node: bool,
) {
    let count = u128::from(count_high) << 64 | u128::from(count_low);
    *words = compress_block(block, *words, count, last_block, last_node);
}
