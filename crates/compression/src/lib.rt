#![tactic(auto)]

// F of RFC 7693: the message schedule, the twelve rounds and the compression of a block.
// Internal: compress_block has one caller, so that the compiler inlines it there.
ghost use Rattle.std.specs.Prelude.{◌≡◌, ◌/◌, ◌%◌, ◌^◌, ◌<◌, length};
ghost use Rattle.definitions.specs.Family.{BLAKE2b};
ghost use Rattle.definitions.specs.Compress.{row, round, ones, rounds_to, F};
ghost use Rattle.definitions.specs.Schedule.{Order};
ghost use Rattle.definitions.specs.Hash as Hash;
ghost use Rattle.laws_words.specs.Halves.{ordered, columns_of, diagonals_of, initial, fold_halves};

use mixing::g;
use std::array;
use words::read_words;

// The numbers that a word has.
const WORD: u128 = 1 << 64;

pub const IV: [u64; 8] = [
    0x6A09E667F3BCC908,
    0xBB67AE8584CAA73B,
    0x3C6EF372FE94F82B,
    0xA54FF53A5F1D36F1,
    0x510E527FADE682D1,
    0x9B05688C2B3E6C1F,
    0x1F83D9ABFB41BD6B,
    0x5BE0CD19137E2179,
];

const SIGMA: [[u8; 16]; 12] = [
    [0, 1, 2, 3, 4, 5, 6, 7, 8, 9, 10, 11, 12, 13, 14, 15],
    [14, 10, 4, 8, 9, 15, 13, 6, 1, 12, 0, 2, 11, 7, 5, 3],
    [11, 8, 12, 0, 5, 2, 15, 13, 10, 14, 3, 6, 7, 1, 9, 4],
    [7, 9, 3, 1, 13, 12, 11, 14, 2, 6, 5, 10, 4, 0, 15, 8],
    [9, 0, 5, 7, 2, 4, 10, 15, 14, 1, 11, 12, 6, 8, 3, 13],
    [2, 12, 6, 10, 0, 11, 8, 3, 4, 13, 7, 5, 15, 14, 1, 9],
    [12, 5, 1, 15, 14, 13, 4, 10, 0, 7, 6, 3, 9, 2, 8, 11],
    [13, 11, 7, 14, 12, 1, 3, 9, 5, 0, 15, 4, 8, 6, 2, 10],
    [6, 15, 14, 9, 11, 3, 0, 8, 12, 2, 13, 7, 1, 4, 10, 5],
    [10, 2, 8, 4, 7, 6, 1, 5, 15, 11, 9, 14, 3, 12, 13, 0],
    [0, 1, 2, 3, 4, 5, 6, 7, 8, 9, 10, 11, 12, 13, 14, 15],
    [14, 10, 4, 8, 9, 15, 13, 6, 1, 12, 0, 2, 11, 7, 5, 3],
];

// The message words in the order of a row.
fn arranged(m: &[u64; 16], row: [u8; 16]) -> [u64; 16]
    requires { Order row }
    ensures { result ≡ ordered m.now row }
{
    array::from_fn(|i| m[row[i] as usize])
}

// The first half of a round, on the ordered message words: the columns.
fn columns(v: [u64; 16], x: [u64; 16]) -> [u64; 16]
    ensures { result ≡ columns_of BLAKE2b x v }
{
    let [a0, b0, c0, d0] = g([v[0], v[4], v[8], v[12]], x[0], x[1]);
    let [a1, b1, c1, d1] = g([v[1], v[5], v[9], v[13]], x[2], x[3]);
    let [a2, b2, c2, d2] = g([v[2], v[6], v[10], v[14]], x[4], x[5]);
    let [a3, b3, c3, d3] = g([v[3], v[7], v[11], v[15]], x[6], x[7]);
    [
        a0, a1, a2, a3, b0, b1, b2, b3, c0, c1, c2, c3, d0, d1, d2, d3,
    ]
}

// The second half: the diagonals.
fn diagonals(v: [u64; 16], x: [u64; 16]) -> [u64; 16]
    ensures { result ≡ diagonals_of BLAKE2b x v }
{
    let [a0, b0, c0, d0] = g([v[0], v[5], v[10], v[15]], x[8], x[9]);
    let [a1, b1, c1, d1] = g([v[1], v[6], v[11], v[12]], x[10], x[11]);
    let [a2, b2, c2, d2] = g([v[2], v[7], v[8], v[13]], x[12], x[13]);
    let [a3, b3, c3, d3] = g([v[3], v[4], v[9], v[14]], x[14], x[15]);
    [
        a0, a1, a2, a3, b3, b0, b1, b2, c2, c3, c0, c1, d1, d2, d3, d0,
    ]
}

// The round i. Inlined where i is a number, it reads no table.
#[inline(always)]
fn round(v: [u64; 16], m: &[u64; 16], i: usize) -> [u64; 16]
    requires { i < 12 }
    ensures { result ≡ round BLAKE2b (row i) m.now v }
{
    let x = arranged(m, SIGMA[i]);
    diagonals(columns(v, x), x)
}

// The twelve rounds on the message words m, written out: a loop over them reads SIGMA for each block, and takes 1.44 times as long.
fn rounds(v0: [u64; 16], m: &[u64; 16]) -> [u64; 16]
    ensures { result ≡ rounds_to BLAKE2b 12 m.now v0 }
{
    let v1 = round(v0, m, 0);
    let v2 = round(v1, m, 1);
    let v3 = round(v2, m, 2);
    let v4 = round(v3, m, 3);
    let v5 = round(v4, m, 4);
    let v6 = round(v5, m, 5);
    let v7 = round(v6, m, 6);
    let v8 = round(v7, m, 7);
    let v9 = round(v8, m, 8);
    let v10 = round(v9, m, 9);
    let v11 = round(v10, m, 10);
    round(v11, m, 11)
}

// A word of ones where the flag is up.
#[tactic(auto, unfolding(definitions::specs::Compress::ones))]
fn flag_word(flag: bool) -> u64
    ensures { result ≡ ones BLAKE2b flag }
{
    if flag { u64::MAX } else { 0 }
}

// The sixteen words before the first round.
fn start(h: [u64; 8], count: u128, last: u64, node: u64) -> [u64; 16]
    ensures { result ≡ initial BLAKE2b h (count % 2 ^ 64) (count / 2 ^ 64) last node }
{
    let low = (count % WORD) as u64;
    let high = (count / WORD) as u64;
    [
        h[0],
        h[1],
        h[2],
        h[3],
        h[4],
        h[5],
        h[6],
        h[7],
        IV[0],
        IV[1],
        IV[2],
        IV[3],
        low ^ IV[4],
        high ^ IV[5],
        last ^ IV[6],
        node ^ IV[7],
    ]
}

fn finish(h: [u64; 8], v: [u64; 16]) -> [u64; 8]
    ensures { result ≡ fold_halves h v }
{
    array::from_fn(|i| h[i] ^ v[i] ^ v[i + 8])
}

// F on a block of 128 bytes.
pub fn compress_block(
    block: &[u8],
    words: [u64; 8],
    count: u128,
    last_block: bool,
    last_node: bool,
) -> [u64; 8]
    requires { length block.now ≡ 128 }
    ensures { result ≡ F BLAKE2b words (Hash.words BLAKE2b 16 block.now) count last_block last_node }
{
    let m = read_words(block);
    let v = start(words, count, flag_word(last_block), flag_word(last_node));
    finish(words, rounds(v, &m))
}
