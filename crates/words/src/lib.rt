#![tactic(auto)]

// The two leaves between bytes and words, little-endian.
// In their plainest form: nothing above goes by more than their contracts.
ghost use Rattle.std.specs.Prelude.{◌≡◌, ◌+◌, ◌≤◌, length, take, drop};
ghost use Rattle.definitions.specs.Words.{word};
ghost use Rattle.definitions.specs.Family.{BLAKE2b};
ghost use Rattle.definitions.specs.Hash.{words, state_bytes};

use std::array;

// The word that the eight bytes from an index on stand for.
pub fn read_word(bytes: &[u8], at: usize) -> u64
    requires { at + 8 ≤ length bytes.now }
    ensures { result ≡ word (take 8 (drop at bytes.now)) }
{
    u64::from_le_bytes(*bytes[at..at + 8].as_array().unwrap())
}

// The sixteen words of a block.
pub fn read_words(block: &[u8]) -> [u64; 16]
    requires { length block.now ≡ 128 }
    ensures { result ≡ words BLAKE2b 16 block.now }
{
    array::from_fn(|i| read_word(block, i * 8))
}

// The sixty-four bytes of eight words.
pub fn write_words(h: [u64; 8]) -> [u8; 64]
    ensures { result ≡ state_bytes BLAKE2b h }
{
    let mut out = [0; 64];
    for (i, x) in h.iter().enumerate() {
        out[i * 8..i * 8 + 8].copy_from_slice(&x.to_le_bytes());
    }
    out
}
