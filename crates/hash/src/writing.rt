// A digest to a lent output, its bytes or its hexadecimal, and the part that it was written to, by a second call.
// A record that is out of range writes nothing.
ghost use Rattle.std.specs.Prelude.{◌≡◌, length};
ghost use Rattle.hash.specs.Answers.{as_length_answer};
ghost use Rattle.hash.specs.Hash.{digest_of, hex_of, written_answered, written_over, written_part};

use crate::hex::put_hex;
use crate::output::{write, written};
use crate::{Hash, OUTBYTES};
use refusals::Refusal;

impl Hash {
    // The digest's bytes, to the front of the output.
    #[tactic(auto, unfolding(crate::specs::Hash::written_answered, crate::specs::Hash::written_over))]
    pub fn write_bytes(self, out: &mut [u8]) -> Result<usize, Refusal>
        ensures { (as_length_answer result ≡ written_answered self (length (digest_of self)) (length out.old))
            × (out.new ≡ written_over self (digest_of self) out.old) }
    {
        write(self.digest()?, out)
    }

    // The digest in lower-case hexadecimal, to the front of the output.
    #[tactic(auto, using(crate::proofs::Digests::hex_front), unfolding(crate::specs::Hash::written_answered, crate::specs::Hash::written_over))]
    pub fn write_hex(self, out: &mut [u8]) -> Result<usize, Refusal>
        ensures { (as_length_answer result ≡ written_answered self (length (hex_of (digest_of self))) (length out.old))
            × (out.new ≡ written_over self (hex_of (digest_of self)) out.old) }
    {
        let bytes = self.digest()?;
        let mut digits = [0; 2 * OUTBYTES];
        put_hex(bytes, &mut digits);
        let end = 2 * bytes.len();
        write(&digits[..end], out)
    }

    // The part of an output that write_bytes wrote: nothing where it was refused.
    #[tactic(auto, unfolding(crate::specs::Hash::written_part))]
    pub fn written_bytes<'a>(self, out: &'a [u8]) -> &'a [u8]
        ensures { result.now ≡ written_part self (length (digest_of self)) out.now }
    {
        match self.digest() {
            Ok(bytes) => written(bytes.len(), out),
            Err(_) => &out[..0],
        }
    }

    // The part of an output that write_hex wrote: nothing where it was refused.
    #[tactic(auto, using(crate::proofs::Digests::length_hex), unfolding(crate::specs::Hash::written_part))]
    pub fn written_hex<'a>(self, out: &'a [u8]) -> &'a [u8]
        ensures { result.now ≡ written_part self (length (hex_of (digest_of self))) out.now }
    {
        match self.digest() {
            Ok(bytes) => written(2 * bytes.len(), out),
            Err(_) => &out[..0],
        }
    }
}
