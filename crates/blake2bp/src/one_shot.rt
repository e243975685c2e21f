// The hash of a whole message: with a key through a state, without one straight to the leaves.
// Total, as the state's calls are.
ghost use Rattle.std.specs.Prelude.{◌≡◌};
ghost use Rattle.hash.specs.Answers.{as_hash_answer};
ghost use Rattle.hash.specs.Hash.{hash_of};
ghost use Rattle.blake2bp.specs.Params.{defaults};
ghost use Rattle.blake2bp.specs.State.{digest, hashed};

use crate::params::Params;
use blake2bp_leaves::{LeafCount, finalize_root_words, finish_leaves, leaf_words, root_words};
use hash::Hash;
use refusals::Refusal;

impl Params {
    // The digest of a whole message.
    #[tactic(auto, using(crate::proofs::Setters::key_short), unfolding(crate::specs::State::hashed))]
    pub fn hash(self, input: &[u8]) -> Result<Hash, Refusal>
        ensures { as_hash_answer result ≡ hashed self input.now }
    {
        self.check()?;
        if self.key_length > 0 {
            return self.with_params().update(input)?.finalize();
        }
        let leaves = leaf_words(self.hash_length, self.key_length);
        let root = root_words(self.hash_length, self.key_length);
        let ends = finish_leaves(leaves, input, LeafCount(0));
        finalize_root_words(ends, root, self.hash_length)
    }
}

// The digest of a message with the default parameters, which are never refused.
pub fn blake2bp(input: &[u8]) -> Hash
    ensures { result ≡ hash_of (digest defaults input.now) }
{
    Params::new().hash(input).unwrap()
}
