// The parameters: a digest length and a key.
// A setter overwrites its whole field, so that nothing of an older value stays.
ghost use Rattle.std.specs.Prelude.{◌≡◌, true, false, [], ◌∷◌, leb, length, MatchResult};
ghost use Rattle.refusals.specs.Numbers.{digest_length, key_length};
ghost use Rattle.refusals.specs.Tests.{test};
ghost use Rattle.hash.specs.Hash.{is_digest_length};
ghost use Rattle.blake2bp.specs.Answers.{as_params_answer};
ghost use Rattle.blake2bp.specs.Params.{defaults, in_range, answered, with_hash_length, with_key};

use guts::{padded, zeroed};
use hash::is_digest_length;
use refusals::Refusal;

#[derive(Clone, Copy)]
pub struct Params {
    pub(crate) hash_length: u8,
    pub(crate) key_length: u8,
    pub(crate) key: [u8; 64],
}

impl Params {
    pub const OUTBYTES: usize = hash::OUTBYTES;

    pub const KEYBYTES: usize = 64;

    pub const BLOCKBYTES: usize = blake2bp_leaves::BLOCKBYTES;

    pub const DEGREE: usize = blake2bp_leaves::DEGREE;

    pub fn new() -> Self
        ensures { result ≡ defaults }
    {
        Params {
            hash_length: Params::OUTBYTES as u8,
            key_length: 0,
            key: zeroed(),
        }
    }

    // Whether the record keeps its stated ranges.
    #[tactic(auto, unfolding(crate::specs::Params::in_range))]
    pub fn in_range(self) -> bool
        ensures { result ≡ in_range self }
    {
        is_digest_length(self.hash_length as usize) && self.key_length as usize <= Params::KEYBYTES
    }

    // Refuses a record that breaks its stated ranges.
    pub(crate) fn check(&self) -> Result<(), Refusal>
        ensures { MatchResult result (λ _. in_range self.now ≡ true) (λ e. (in_range self.now ≡ false) × (e ≡ Refusal.Record)) }
    {
        self.in_range().then_some(()).ok_or(Refusal::Record)
    }

    #[tactic(auto, unfolding(crate::specs::Params::answered))]
    pub fn hash_length(self, length: usize) -> Result<Params, Refusal>
        ensures { as_params_answer self result ≡ answered self (test (is_digest_length length) digest_length ∷ []) (with_hash_length length self) }
    {
        self.check()?;
        if !is_digest_length(length) {
            return Err(Refusal::DigestLength);
        }
        Ok(Params {
            hash_length: length as u8,
            ..self
        })
    }

    // A key, which an empty one takes away.
    #[tactic(auto, unfolding(crate::specs::Params::answered))]
    pub fn key(self, key: &[u8]) -> Result<Params, Refusal>
        ensures { as_params_answer self result ≡ answered self (test (leb (length key.now) 64) key_length ∷ []) (with_key key.now self) }
    {
        self.check()?;
        if key.len() > Params::KEYBYTES {
            return Err(Refusal::KeyLength);
        }
        Ok(Params {
            key_length: key.len() as u8,
            key: padded(key),
            ..self
        })
    }
}
