// The parameters: the defaults, a setter for each, the words that a hash starts from, and the state that starts from them.
// A setter overwrites its whole field, so that nothing of an older value stays.
ghost use Rattle.std.specs.Prelude.{◌≡◌, ◌<◌, ◌≤◌, true, false, leb, length, [], ◌∷◌, MatchResult};
ghost use Rattle.definitions.specs.Words.{pad};
ghost use Rattle.definitions.specs.Family.{BLAKE2b};
ghost use Rattle.definitions.specs.Hash.{start};
ghost use Rattle.refusals.specs.declared.refusal.Refusal.TheVariants.{Record};
ghost use Rattle.refusals.specs.Numbers.{digest_length, key_length, salt_length, personal_length, inner_length};
ghost use Rattle.refusals.specs.Tests.{test};
ghost use Rattle.hash.specs.Hash.{is_digest_length};
ghost use Rattle.blake2b_state.specs.Answers.{as_state_answer};
ghost use Rattle.blake2b_state.specs.State.{zero_state};
ghost use Rattle.blake2b.specs.Answers.{as_params_answer};
ghost use Rattle.blake2b.specs.Params.{defaults, in_range, asked, answered, with_number, with_key, with_salt, with_personal, with_last_node};
ghost use Rattle.blake2b.specs.Member.{opened};
ghost use Rattle.blake2b.specs.Params.{hash_length_at, fanout_at, max_depth_at, max_leaf_length_at, node_offset_at, node_depth_at, inner_hash_length_at};

use blake2b_state::State;
use guts::{padded, zeroed};
use hash::{OUTBYTES, is_digest_length};
use portable::ParameterBlock;
use refusals::Refusal;

#[derive(Clone, Copy)]
pub struct Params {
    pub(crate) hash_length: u8,
    pub(crate) key_length: u8,
    pub(crate) key_block: [u8; 128],
    pub(crate) salt: [u8; 16],
    pub(crate) personal: [u8; 16],
    pub(crate) fanout: u8,
    pub(crate) max_depth: u8,
    pub(crate) max_leaf_length: u32,
    pub(crate) node_offset: u64,
    pub(crate) node_depth: u8,
    pub(crate) inner_hash_length: u8,
    pub(crate) last_node: bool,
}

// A field of what is given and zeros behind it: refused where that is longer than it may be.
fn field<const N: usize>(given: &[u8], most: usize, refusal: Refusal) -> Result<[u8; N], Refusal>
    requires { most ≤ N }
    ensures { MatchResult result (λ f. (length given.now ≤ most) × (f ≡ pad N given.now)) (λ e. (e ≡ refusal) × (most < length given.now)) }
{
    if given.len() > most {
        return Err(refusal);
    }
    Ok(padded(given))
}

impl Params {
    pub const OUTBYTES: usize = OUTBYTES;

    pub const KEYBYTES: usize = 64;

    pub const SALTBYTES: usize = 16;

    pub const PERSONALBYTES: usize = 16;

    pub const BLOCKBYTES: usize = portable::BLOCKBYTES;

    #[tactic(auto, unfolding(laws_words::specs::Bytes::zeros))]
    pub fn new() -> Self
        ensures { result ≡ defaults }
    {
        Params {
            hash_length: 64,
            key_length: 0,
            key_block: zeroed(),
            salt: [0; 16],
            personal: [0; 16],
            fanout: 1,
            max_depth: 1,
            max_leaf_length: 0,
            node_offset: 0,
            node_depth: 0,
            inner_hash_length: 0,
            last_node: false,
        }
    }

    // Whether the record keeps its stated ranges.
    #[tactic(auto, unfolding(crate::specs::Params::in_range))]
    pub fn in_range(self) -> bool
        ensures { result ≡ in_range self }
    {
        is_digest_length(self.hash_length as usize)
            && self.key_length as usize <= Params::KEYBYTES
            && self.inner_hash_length as usize <= Params::OUTBYTES
    }

    // Refuses a record that breaks them.
    pub(crate) fn check(&self) -> Result<(), Refusal>
        ensures { MatchResult result (λ _. in_range self.now ≡ true) (λ e. (e ≡ Record) × (in_range self.now ≡ false)) }
    {
        self.in_range().then_some(()).ok_or(Refusal::Record)
    }

    pub fn hash_length(self, length: usize) -> Result<Self, Refusal>
        ensures { as_params_answer self result ≡ answered self (test (is_digest_length length) digest_length ∷ []) (with_number hash_length_at length self) }
    {
        self.check()?;
        if !is_digest_length(length) {
            return Err(Refusal::DigestLength);
        }
        Ok(Params {
            hash_length: length as u8,
            ..self
        })
    }

    // A key, which an empty one takes away.
    pub fn key(self, key: &[u8]) -> Result<Self, Refusal>
        ensures { as_params_answer self result ≡ answered self (test (leb (length key.now) 64) key_length ∷ []) (with_key key.now self) }
    {
        self.check()?;
        let key_block = field(key, Params::KEYBYTES, Refusal::KeyLength)?;
        Ok(Params {
            key_length: key.len() as u8,
            key_block,
            ..self
        })
    }

    pub fn salt(self, salt: &[u8]) -> Result<Self, Refusal>
        ensures { as_params_answer self result ≡ answered self (test (leb (length salt.now) 16) salt_length ∷ []) (with_salt salt.now self) }
    {
        self.check()?;
        let salt = field(salt, Params::SALTBYTES, Refusal::SaltLength)?;
        Ok(Params { salt, ..self })
    }

    pub fn personal(self, personalization: &[u8]) -> Result<Self, Refusal>
        ensures { as_params_answer self result ≡ answered self (test (leb (length personalization.now) 16) personal_length ∷ []) (with_personal personalization.now self) }
    {
        self.check()?;
        let personal = field(
            personalization,
            Params::PERSONALBYTES,
            Refusal::PersonalLength,
        )?;
        Ok(Params { personal, ..self })
    }

    pub fn fanout(self, fanout: u8) -> Result<Self, Refusal>
        ensures { as_params_answer self result ≡ answered self [] (with_number fanout_at fanout self) }
    {
        self.check()?;
        Ok(Params { fanout, ..self })
    }

    pub fn max_depth(self, depth: u8) -> Result<Self, Refusal>
        ensures { as_params_answer self result ≡ answered self [] (with_number max_depth_at depth self) }
    {
        self.check()?;
        Ok(Params {
            max_depth: depth,
            ..self
        })
    }

    pub fn max_leaf_length(self, length: u32) -> Result<Self, Refusal>
        ensures { as_params_answer self result ≡ answered self [] (with_number max_leaf_length_at length self) }
    {
        self.check()?;
        Ok(Params {
            max_leaf_length: length,
            ..self
        })
    }

    pub fn node_offset(self, offset: u64) -> Result<Self, Refusal>
        ensures { as_params_answer self result ≡ answered self [] (with_number node_offset_at offset self) }
    {
        self.check()?;
        Ok(Params {
            node_offset: offset,
            ..self
        })
    }

    pub fn node_depth(self, depth: u8) -> Result<Self, Refusal>
        ensures { as_params_answer self result ≡ answered self [] (with_number node_depth_at depth self) }
    {
        self.check()?;
        Ok(Params {
            node_depth: depth,
            ..self
        })
    }

    pub fn inner_hash_length(self, length: usize) -> Result<Self, Refusal>
        ensures { as_params_answer self result ≡ answered self (test (leb length 64) inner_length ∷ []) (with_number inner_hash_length_at length self) }
    {
        self.check()?;
        if length > Params::OUTBYTES {
            return Err(Refusal::InnerLength);
        }
        Ok(Params {
            inner_hash_length: length as u8,
            ..self
        })
    }

    pub fn last_node(self, last_node: bool) -> Result<Self, Refusal>
        ensures { as_params_answer self result ≡ answered self [] (with_last_node last_node self) }
    {
        self.check()?;
        Ok(Params { last_node, ..self })
    }

    // What the layers above read of the parameters.
    pub fn is_keyed(self) -> bool
        ensures { result ≡ leb 1 self.key_length }
    {
        1 <= self.key_length
    }

    pub fn key_block(self) -> [u8; 128]
        ensures { result ≡ self.key_block }
    {
        self.key_block
    }

    pub fn digest_length(self) -> u8
        ensures { result ≡ self.hash_length }
    {
        self.hash_length
    }

    pub fn is_last_node(self) -> bool
        ensures { result ≡ self.last_node }
    {
        self.last_node
    }

    // The words that a hash starts from.
    pub fn to_words(self) -> [u64; 8]
        ensures { result ≡ start BLAKE2b (asked self) }
    {
        let salt = self.salt;
        let personal = self.personal;
        ParameterBlock {
            digest_length: self.hash_length,
            key_length: self.key_length,
            fanout: self.fanout,
            depth: self.max_depth,
            leaf_length: self.max_leaf_length,
            node_offset: self.node_offset,
            node_depth: self.node_depth,
            inner_length: self.inner_hash_length,
            salt,
            personal,
        }
        .words()
    }

    // The state of no message bytes.
    #[tactic(auto, using(blake2b_state::proofs::Exits::handed_on), unfolding(crate::specs::Member::opened))]
    pub fn to_state(self) -> Result<State, Refusal>
        ensures { as_state_answer zero_state result ≡ opened self }
    {
        self.check()?;
        State::begin(
            self.to_words(),
            self.hash_length,
            self.last_node,
            self.is_keyed().then_some(self.key_block),
        )
    }
}
