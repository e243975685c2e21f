#![tactic(auto)]

// What a program in C or Rust links: the block loop, the bytes of a state, and BLAKE2b one-shot and through a state.
// The digests are promised to be RFC 7693's; the block loop and the bytes are for the benchmarks, safe by proof with no promise.
// It has one caller of compress_block, the loop, as the library has: a second one would keep the compiler from inlining it.
ghost use Rattle.std.specs.Prelude.{◌≡◌, [], ◌+◌, ◌<◌, ◌^◌, length};
ghost use Rattle.definitions.specs.Family.{BLAKE2b};
ghost use Rattle.definitions.specs.Hash.{blake2};
ghost use Rattle.hash.specs.Output.{wrote, wrote_over};

use blake2b::{State, blake2b};
use guts::{Finalize, LastNode, Stride};
use portable::compress1_loop;
use refusals::number_in;
use words::write_words;

#[unsafe(no_mangle)]
pub extern "C" fn sumpillow_compress1_loop(
    input: &[u8],
    words: &mut [u64; 8],
    count: u64,
    last_node: bool,
    finalize: bool,
    parallel: bool,
)
    requires { count + length input.now < 2 ^ 64 }
{
    let stride = if parallel {
        Stride::Parallel
    } else {
        Stride::Serial
    };
    let run = compress1_loop(
        input,
        *words,
        count,
        LastNode::from(last_node),
        Finalize::from(finalize),
        stride,
    );
    let next = run.words;
    *words = next;
}

#[unsafe(no_mangle)]
pub extern "C" fn sumpillow_write_words(words: &[u64; 8], out: &mut [u8; 64]) {
    *out = write_words(*words);
}

// The digest of 64 bytes, one-shot; the answer's number.
#[unsafe(no_mangle)]
pub extern "C" fn sumpillow_blake2b(input: &[u8], out: &mut [u8]) -> u8
    ensures { (result ≡ (wrote 64 (length out.old)).number) × (out.new ≡ wrote_over (blake2 BLAKE2b 64 [] input.now) out.old) }
{
    number_in(&blake2b(input).write_bytes(out))
}

// The same through a state and one update.
#[unsafe(no_mangle)]
pub extern "C" fn sumpillow_state(input: &[u8], out: &mut [u8]) -> u8
    ensures { (result ≡ (wrote 64 (length out.old)).number) × (out.new ≡ wrote_over (blake2 BLAKE2b 64 [] input.now) out.old) }
{
    let fresh = State::new();
    let taken = fresh.update(input).unwrap();
    let hash = taken.finalize().unwrap();
    number_in(&hash.write_bytes(out))
}
