// The state of a hash that takes its message piece by piece.
// A last block, also a full one, waits in the buffer until more has come.
ghost use Rattle.std.specs.Prelude.{◌≡◌, ◌++◌, ◌+◌, ◌*◌, ◌^◌, ◌<◌, ◌≤◌, [], true, false, length, is_some, unwrap_or};
ghost use Rattle.definitions.specs.Family.{BLAKE2b};
ghost use Rattle.laws_blocks.specs.Chain.{spare, absorb};
ghost use Rattle.laws_blocks.specs.Blocks.{on_bytes};
ghost use Rattle.hash.specs.Answers.{as_hash_answer};
ghost use Rattle.members.specs.Sizes.{sizes_of};
ghost use Rattle.blake2b_state.specs.Answers.{as_state_answer, as_count_answer};
ghost use Rattle.blake2b_state.specs.State.{keeper, state_in_range, zero_state, beginning, plain, pending, moved, updated, last_node_set, finalized, counted};

use guts::{Finalize, LastNode, Stride, offset_slice, store, zeroed};
use hash::{Hash, OUTBYTES, is_digest_length};
use members::{Bounds, Sizes};
use portable::{BLOCKBYTES, Compressed, ParameterBlock, compress1_loop};
use refusals::Refusal;
use words::write_words;

#[derive(Clone, Copy)]
pub struct State {
    pub(crate) words: [u64; 8],
    // The bytes that were compressed.
    pub(crate) count: u64,
    // Zeros behind the bytes that wait.
    pub(crate) buf: [u8; 128],
    pub(crate) buflen: usize,
    pub(crate) last_node: bool,
    pub(crate) hash_length: u8,
    pub(crate) is_keyed: bool,
}

const BOUNDS: Bounds = Bounds {
    most: OUTBYTES,
    room: BLOCKBYTES,
    unit: 1,
    key: BLOCKBYTES as u64,
};

// Whole blocks, none of them the last.
fn absorbed(words: [u64; 8], count: u64, input: &[u8], blocks: usize) -> Compressed
    requires { (0 < blocks) × (length input.now ≡ 128 * blocks) × (count + length input.now < 2 ^ 64) }
    ensures { result.words ≡ absorb 128 (on_bytes BLAKE2b) 128 words count input.now blocks }
{
    compress1_loop(
        input,
        words,
        count,
        LastNode::No,
        Finalize::No,
        Stride::Serial,
    )
}

// Of n bytes, the blocks that may go so that a byte is left.
#[tactic(auto, unfolding(laws_blocks::specs::Chain::spare))]
fn spare_blocks(n: usize) -> usize
    ensures { result ≡ spare 128 0 n }
{
    n.saturating_sub(1) / BLOCKBYTES
}

impl State {
    // The state of no message bytes that starts from these words: the key block waits in the buffer where there is a key.
    pub fn begin(
        words: [u64; 8],
        hash_length: u8,
        last_node: bool,
        key_block: Option<[u8; 128]>,
    ) -> Result<Self, Refusal>
        ensures { as_state_answer zero_state result ≡ beginning words hash_length last_node (is_some key_block) (unwrap_or key_block []) }
    {
        if !is_digest_length(hash_length as usize) {
            return Err(Refusal::DigestLength);
        }
        let unkeyed = State {
            words,
            last_node,
            hash_length,
            ..State::zero()
        };
        match key_block {
            Some(block) => Ok(State {
                buf: block,
                buflen: BLOCKBYTES,
                is_keyed: true,
                ..unkeyed
            }),
            None => Ok(unkeyed),
        }
    }

    // The state of RFC 7693's plain hash: no key, and 64 bytes of digest.
    pub fn new() -> Self
        ensures { result ≡ plain }
    {
        let sequential = ParameterBlock {
            digest_length: OUTBYTES as u8,
            key_length: 0,
            fanout: 1,
            depth: 1,
            leaf_length: 0,
            node_offset: 0,
            node_depth: 0,
            inner_length: 0,
            salt: [0; 16],
            personal: [0; 16],
        };
        State {
            words: sequential.words(),
            hash_length: OUTBYTES as u8,
            ..State::zero()
        }
    }

    // What stands in place of a state where there is none: in a closed slot, for one.
    #[tactic(auto, unfolding(laws_words::specs::Bytes::zeros))]
    pub fn zero() -> Self
        ensures { result ≡ zero_state }
    {
        State {
            words: [0; 8],
            count: 0,
            buf: zeroed(),
            buflen: 0,
            last_node: false,
            hash_length: 0,
            is_keyed: false,
        }
    }

    // What is tested of the record.
    fn sizes(self) -> Sizes
        ensures { result ≡ sizes_of keeper self }
    {
        Sizes {
            hash_length: self.hash_length,
            buflen: self.buflen,
            count: self.count,
            is_keyed: self.is_keyed,
        }
    }

    // Whether the record keeps its stated ranges.
    pub fn in_range(self) -> bool
        ensures { result ≡ state_in_range self }
    {
        BOUNDS.admits(self.sizes())
    }

    // The input fits the buffer.
    fn fill_buf(self, input: &[u8]) -> Self
        requires { self.buflen + length input.now ≤ 128 }
        ensures { result ≡ moved self (pending self ++ input.now) 0 }
    {
        let held = self.buflen;
        let mut buf = self.buf;
        store(&mut buf, held, input);
        State {
            buf,
            buflen: held + input.len(),
            ..self
        }
    }

    // The buffer is full, and more is to come.
    fn compress_buffer(self) -> Self
        requires { (self.buflen ≡ 128) × (self.count + 128 < 2 ^ 64) }
        ensures { result ≡ moved self (pending self) 1 }
    {
        let words = absorbed(self.words, self.count, &self.buf, 1).words;
        State {
            words,
            count: self.count + 128,
            buf: zeroed(),
            buflen: 0,
            ..self
        }
    }

    // The buffer is empty, and the input is whole blocks.
    fn compress_blocks(self, input: &[u8], blocks: usize) -> Self
        requires { (self.buflen ≡ 0) × (length input.now ≡ 128 * blocks) × (self.count + length input.now < 2 ^ 64) }
        ensures { result ≡ moved self input.now blocks }
    {
        if blocks == 0 {
            return self;
        }
        let words = absorbed(self.words, self.count, input, blocks).words;
        State {
            words,
            count: self.count + input.len() as u64,
            buf: zeroed(),
            ..self
        }
    }

    // The buffer is empty: all blocks but the last go straight from the input.
    fn take_long(self, input: &[u8]) -> Self
        requires { (self.buflen ≡ 0) × (self.count + length input.now < 2 ^ 64) }
        ensures { result ≡ moved self (pending self ++ input.now) (spare 128 0 (length input.now)) }
    {
        let blocks = spare_blocks(input.len());
        let end = BLOCKBYTES * blocks;
        let s = self.compress_blocks(&input[..end], blocks);
        s.fill_buf(offset_slice(input, end))
    }

    // The buffer has no room for the input: it is filled and goes, and the rest follows.
    fn spill(self, input: &[u8]) -> Self
        requires { (self.buflen ≤ 128) × (128 < self.buflen + length input.now) × (self.count + self.buflen + length input.now < 2 ^ 64) }
        ensures { result ≡ moved self (pending self ++ input.now) (spare 128 0 (self.buflen + length input.now)) }
    {
        let room = BLOCKBYTES - self.buflen;
        let full = self.fill_buf(&input[..room]);
        let s = full.compress_buffer();
        s.take_long(offset_slice(input, room))
    }

    #[tactic(auto, using(crate::proofs::States::held), unfolding(crate::specs::State::updated, refusals::specs::Numbers::limit))]
    pub fn update(self, input: &[u8]) -> Result<Self, Refusal>
        ensures { as_state_answer self result ≡ updated self input.now }
    {
        BOUNDS.check_room(self.sizes(), input.len())?;
        if input.len() <= BLOCKBYTES - self.buflen {
            return Ok(self.fill_buf(input));
        }
        if self.buflen == 0 {
            return Ok(self.take_long(input));
        }
        Ok(self.spill(input))
    }

    // The state may go on: it is a copy that is asked.
    #[tactic(auto, using(crate::proofs::Exits::handed_on, crate::proofs::States::held, crate::proofs::States::within), unfolding(crate::specs::State::finalized, refusals::specs::Numbers::limit))]
    pub fn finalize(self) -> Result<Hash, Refusal>
        ensures { as_hash_answer result ≡ finalized self }
    {
        BOUNDS.check(self.sizes())?;
        let run = compress1_loop(
            &self.buf[..self.buflen],
            self.words,
            self.count,
            LastNode::from(self.last_node),
            Finalize::Yes,
            Stride::Serial,
        );
        Hash::from_state(&write_words(run.words), self.hash_length as usize)
    }

    #[tactic(auto, using(crate::proofs::Exits::handed_on), unfolding(crate::specs::State::last_node_set))]
    pub fn set_last_node(self, last_node: bool) -> Result<Self, Refusal>
        ensures { as_state_answer self result ≡ last_node_set self last_node }
    {
        BOUNDS.check(self.sizes())?;
        Ok(State { last_node, ..self })
    }

    // The message bytes that came: the key block is not one of them.
    #[tactic(auto, using(members::proofs::Promises::told_count), unfolding(crate::specs::State::counted))]
    pub fn count(self) -> Result<u64, Refusal>
        ensures { as_count_answer result ≡ counted self }
    {
        BOUNDS.message_bytes(self.sizes())
    }
}
