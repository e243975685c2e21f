#![tactic(auto)]

// What a program in C or Rust links of BLAKE2bp: one-shot, promised to be the paper's digest.
// It is apart from `exports` so that BLAKE2b is linked and checked without it.
ghost use Rattle.std.specs.Prelude.{◌≡◌, [], length};
ghost use Rattle.definitions.specs.Tree.{BLAKE2bp};
ghost use Rattle.hash.specs.Output.{wrote, wrote_over};

use blake2bp::blake2bp;
use refusals::number_in;

// The digest of 64 bytes; the answer's number.
#[unsafe(no_mangle)]
pub extern "C" fn sumpillow_blake2bp(input: &[u8], out: &mut [u8]) -> u8
    ensures { (result ≡ (wrote 64 (length out.old)).number) × (out.new ≡ wrote_over (BLAKE2bp 64 [] input.now) out.old) }
{
    number_in(&blake2bp(input).write_bytes(out))
}
