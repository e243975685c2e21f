// The hash of a whole message: with a key through a state, without one straight through the block loop.
// Total, as the state's calls are.
ghost use Rattle.std.specs.Prelude.{◌≡◌};
ghost use Rattle.hash.specs.Answers.{as_hash_answer};
ghost use Rattle.hash.specs.Hash.{hash_of};
ghost use Rattle.blake2b.specs.Params.{defaults};
ghost use Rattle.blake2b.specs.Member.{digest, hashed};

use crate::params::Params;
use guts::{Finalize, LastNode, Stride};
use hash::Hash;
use portable::compress1_loop;
use refusals::Refusal;
use words::write_words;

impl Params {
    // The digest of a whole message.
    #[tactic(auto, using(blake2b_state::proofs::Exits::handed_on), unfolding(crate::specs::Member::hashed))]
    pub fn hash(self, input: &[u8]) -> Result<Hash, Refusal>
        ensures { as_hash_answer result ≡ hashed self input.now }
    {
        if self.is_keyed() {
            return self.to_state()?.update(input)?.finalize();
        }
        self.check()?;
        let run = compress1_loop(
            input,
            self.to_words(),
            0,
            LastNode::from(self.last_node),
            Finalize::Yes,
            Stride::Serial,
        );
        Hash::from_state(&write_words(run.words), self.hash_length as usize)
    }
}

// The digest of a message with the default parameters.
pub fn blake2b(input: &[u8]) -> Hash
    ensures { result ≡ hash_of (digest defaults input.now) }
{
    Params::new().hash(input).unwrap()
}
