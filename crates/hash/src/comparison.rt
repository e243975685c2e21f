// Two digests are equal where length and bytes agree, and a digest and other bytes the same.
ghost use Rattle.std.specs.Prelude.{◌≡◌, true};
ghost use Rattle.hash.specs.Answers.{as_equal_answer};
ghost use Rattle.hash.specs.Hash.{hash_in_range, digest_of, compared};

use crate::Hash;
use refusals::Refusal;

impl Hash {
    // Whether length and bytes agree.
    #[tactic(auto, unfolding(crate::specs::Hash::compared))]
    pub fn equals(self, other: Hash) -> Result<bool, Refusal>
        ensures { as_equal_answer result ≡ compared self (hash_in_range other) (digest_of other) }
    {
        self.equals_bytes(other.digest()?)
    }

    #[tactic(auto, using(crate::proofs::Digests::pointwise_same), unfolding(crate::specs::Hash::compared))]
    pub fn equals_bytes(self, other: &[u8]) -> Result<bool, Refusal>
        ensures { as_equal_answer result ≡ compared self true other.now }
    {
        Ok(self.digest()? == other)
    }
}
