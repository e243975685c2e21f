#![tactic(auto)]

// A digest: its bytes, its comparison, and what is written of it to a lent output. Public: every call is total.
// Bytes behind the length are zero; the zero record is the one that is out of range.
mod comparison;
mod hex;
mod output;
mod writing;

ghost use Rattle.std.specs.Prelude.{◌≡◌, true, false, MatchResult};
ghost use Rattle.refusals.specs.declared.refusal.Refusal.TheVariants.{Record};
ghost use Rattle.hash.specs.Answers.{as_hash_answer, as_length_answer};
ghost use Rattle.hash.specs.Hash.{is_digest_length, hash_in_range, hash_of, digest_of, zero_hash, made_from, length_answered};

use guts::store;
pub use output::write;
pub use refusals::Refusal;

// The most bytes that a digest has.
pub const OUTBYTES: usize = 64;

#[derive(Clone, Copy)]
pub struct Hash {
    // Zeros behind the length.
    pub(crate) bytes: [u8; OUTBYTES],
    pub(crate) len: u8,
}

// Whether a digest may have n bytes.
pub fn is_digest_length(n: usize) -> bool
    ensures { result ≡ is_digest_length n }
{
    1 <= n && n <= OUTBYTES
}

impl Hash {
    // A record that is out of range: every call on it is refused.
    #[tactic(auto, unfolding(laws_words::specs::Bytes::zeros))]
    pub fn zero() -> Self
        ensures { result ≡ zero_hash }
    {
        Self {
            bytes: [0; OUTBYTES],
            len: 0,
        }
    }

    // The first `length` of a state's bytes, which are as many as its width has.
    #[tactic(auto, using(crate::proofs::Digests::not_made, crate::proofs::Digests::not_there))]
    pub fn from_state(state: &[u8], length: usize) -> Result<Self, Refusal>
        ensures { as_hash_answer result ≡ made_from state.now length }
    {
        if !is_digest_length(length) || state.len() < length {
            return Err(Refusal::DigestLength);
        }
        let mut bytes = [0; OUTBYTES];
        store(&mut bytes, 0, &state[..length]);
        Ok(Self {
            bytes,
            len: length as u8,
        })
    }

    // A digest of 64 bytes.
    #[tactic(auto, using(crate::proofs::Digests::whole_hash))]
    pub fn from_bytes(bytes: [u8; OUTBYTES]) -> Self
        ensures { result ≡ hash_of bytes }
    {
        Self {
            bytes,
            len: OUTBYTES as u8,
        }
    }

    // Whether the record keeps its stated range.
    #[tactic(auto, unfolding(crate::specs::Hash::hash_in_range))]
    pub fn in_range(self) -> bool
        ensures { result ≡ hash_in_range self }
    {
        is_digest_length(self.len as usize)
    }

    // The bytes of a record that is in range.
    #[tactic(auto, using(crate::proofs::Digests::digest_length_bounds), unfolding(crate::specs::Hash::hash_in_range))]
    fn digest(&self) -> Result<&[u8], Refusal>
        ensures { MatchResult result (λ d. (hash_in_range self.now ≡ true) × (d.now ≡ digest_of self.now)) (λ e. (hash_in_range self.now ≡ false) × (e ≡ Record)) }
    {
        if self.in_range() {
            return Ok(&self.bytes[..self.len as usize]);
        }
        Err(Refusal::Record)
    }

    #[tactic(auto, using(crate::proofs::Digests::length_digest), unfolding(crate::specs::Hash::length_answered))]
    pub fn len(self) -> Result<usize, Refusal>
        ensures { as_length_answer result ≡ length_answered self }
    {
        Ok(self.digest()?.len())
    }
}
