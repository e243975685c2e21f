// The state of a hash that takes its message piece by piece, and how parameters make it begin.
// The buffer holds two rows of blocks: a row goes only once each leaf is known to get more.
ghost use Rattle.std.specs.Prelude.{◌≡◌, true, false, ◌++◌, ◌+◌, ◌*◌, ◌^◌, ◌<◌, ◌≤◌, length};
ghost use Rattle.definitions.specs.Words.{pad};
ghost use Rattle.laws_blocks.specs.Chain.{spare};
ghost use Rattle.laws_states.specs.Leaves.{row_of};
ghost use Rattle.hash.specs.Answers.{as_hash_answer};
ghost use Rattle.members.specs.Sizes.{sizes_of};
ghost use Rattle.blake2bp.specs.Answers.{as_state_answer, as_count_answer, as_leaf_count_answer, as_buffered_answer};
ghost use Rattle.blake2bp.specs.Params.{defaults};
ghost use Rattle.blake2bp.specs.State.{keeper, pending, moved, state_in_range, zero_state, front, fresh, opened, updated, finalized, counted, leaf_counted, buffered_in};

use crate::counts::MessageCount;
use crate::params::Params;
use blake2bp_leaves::{
    DEGREE, Leaf, LeafCount, compress_to_leaves, finalize_root_words, finish_leaves, leaf_words,
    root_words,
};
use guts::{offset_slice, padded, store, zeroed};
use hash::Hash;
use members::{Bounds, Sizes};
use refusals::Refusal;

#[derive(Clone, Copy)]
pub struct State {
    pub(crate) leaves: [Leaf; DEGREE],
    pub(crate) root_words: [u64; 8],
    // Zeros behind the bytes that wait.
    pub(crate) buf: [u8; BUFFER],
    pub(crate) buf_len: usize,
    pub(crate) count: LeafCount,
    pub(crate) hash_length: u8,
    pub(crate) is_keyed: bool,
}

// Bytes in a row of blocks, one to each leaf, and in the buffer; and those that must still come, and one more, for a row to go.
const ROW: usize = Params::DEGREE * Params::BLOCKBYTES;

const BUFFER: usize = 2 * ROW;

const NEED: usize = (Params::DEGREE - 1) * Params::BLOCKBYTES;

const BOUNDS: Bounds = Bounds {
    most: Params::OUTBYTES,
    room: BUFFER,
    unit: Params::DEGREE as u64,
    key: ROW as u64,
};

// A buffer with a key block for each leaf.
#[tactic(auto, unfolding(laws_states::specs::Leaves::row_of))]
fn key_row(block: [u8; 128]) -> [u8; BUFFER]
    ensures { result ≡ pad 1024 (row_of 4 block) }
{
    padded([block; DEGREE].as_flattened())
}

// Of n bytes, the rows that may go so that each leaf has a byte left.
#[tactic(auto, unfolding(laws_blocks::specs::Chain::spare))]
fn spare_rows(n: usize) -> usize
    ensures { result ≡ spare 512 384 n }
{
    n.saturating_sub(NEED + 1) / ROW
}

impl State {
    pub fn new() -> Self
        ensures { result ≡ fresh defaults }
    {
        Params::new().with_params()
    }

    // A record that is out of its ranges: every call on it is refused.
    #[tactic(auto, unfolding(laws_words::specs::Bytes::zeros))]
    pub fn zero() -> Self
        ensures { result ≡ zero_state }
    {
        State {
            leaves: [Leaf { words: [0; 8] }; DEGREE],
            root_words: [0; 8],
            buf: zeroed(),
            buf_len: 0,
            count: LeafCount(0),
            hash_length: 0,
            is_keyed: false,
        }
    }

    // What is tested of the record.
    fn sizes(self) -> Sizes
        ensures { result ≡ sizes_of keeper self }
    {
        Sizes {
            hash_length: self.hash_length,
            buflen: self.buf_len,
            count: self.count.0,
            is_keyed: self.is_keyed,
        }
    }

    // Whether the record keeps its stated ranges.
    pub fn in_range(self) -> bool
        ensures { result ≡ state_in_range self }
    {
        BOUNDS.admits(self.sizes())
    }

    // The input fits the buffer.
    fn fill_buf(mut self, input: &[u8]) -> Self
        requires { self.buf_len + length input.now ≤ 1024 }
        ensures { result ≡ moved self (pending self ++ input.now) 0 }
    {
        let held = self.buf_len;
        store(&mut self.buf, held, input);
        self.buf_len = held + input.len();
        self
    }

    // All that is there: rows of it go, one at least, and the rest waits.
    fn compress_rows(self, all: &[u8], rows: usize) -> Self
        requires some { 0 < rows }
        requires there { 512 * rows ≤ length all.now }
        requires fits { length all.now ≤ 512 * rows + 1024 }
        requires counts { self.count.0 + length all.now < 2 ^ 64 }
        ensures { result ≡ moved self all.now rows }
    {
        let end = ROW * rows;
        let rest = &all[end..];
        State {
            leaves: compress_to_leaves(self.leaves, &all[..end], self.count, rows),
            count: LeafCount(self.count.0 + (Params::BLOCKBYTES * rows) as u64),
            buf: padded(rest),
            buf_len: rest.len(),
            ..self
        }
    }

    // The buffer is empty: all rows that may go straight from the input.
    fn take_long(self, input: &[u8]) -> Self
        requires empty { self.buf_len ≡ 0 }
        requires counts { self.count.0 + length input.now < 2 ^ 64 }
        ensures { result ≡ moved self (pending self ++ input.now) (spare 512 384 (length input.now)) }
    {
        let rows = spare_rows(input.len());
        if rows == 0 {
            return self.fill_buf(input);
        }
        self.compress_rows(input, rows)
    }

    // The buffer holds some and has no room for the input: it is filled, rows of it go, and the rest follows.
    // Both its rows go where more than 384 bytes are still to come, else the first one.
    fn spill(self, input: &[u8]) -> Self
        requires held { self.buf_len ≤ 1024 }
        requires more { 1024 < self.buf_len + length input.now }
        requires counts { self.count.0 + self.buf_len + length input.now < 2 ^ 64 }
        ensures { result ≡ moved self (pending self ++ input.now) (spare 512 384 (self.buf_len + length input.now)) }
    {
        let room = BUFFER - self.buf_len;
        let full = self.fill_buf(&input[..room]);
        let rest = offset_slice(input, room);
        if rest.len() > NEED {
            return full.compress_rows(&full.buf, 2).take_long(rest);
        }
        full.compress_rows(&full.buf, 1).fill_buf(rest)
    }

    #[tactic(auto, using(crate::proofs::States::held, crate::proofs::States::within), unfolding(crate::specs::State::updated, refusals::specs::Numbers::limit))]
    pub fn update(self, input: &[u8]) -> Result<State, Refusal>
        ensures { as_state_answer self result ≡ updated self input.now }
    {
        BOUNDS.check_room(self.sizes(), input.len())?;
        if self.buf_len == 0 {
            return Ok(self.take_long(input));
        }
        if input.len() <= BUFFER - self.buf_len {
            return Ok(self.fill_buf(input));
        }
        Ok(self.spill(input))
    }

    // The state may go on: it is a copy that is asked.
    #[tactic(auto, using(crate::proofs::States::held, crate::proofs::States::within), unfolding(crate::specs::State::finalized, refusals::specs::Numbers::limit))]
    pub fn finalize(self) -> Result<Hash, Refusal>
        ensures { as_hash_answer result ≡ finalized self }
    {
        BOUNDS.check(self.sizes())?;
        let leaves = finish_leaves(self.leaves, &self.buf[..self.buf_len], self.count);
        finalize_root_words(leaves, self.root_words, self.hash_length)
    }

    // The message bytes that came: the key blocks are not among them.
    #[tactic(auto, using(members::proofs::Promises::told_count), unfolding(crate::specs::State::counted))]
    pub fn count(self) -> Result<MessageCount, Refusal>
        ensures { as_count_answer result ≡ counted self }
    {
        Ok(MessageCount(BOUNDS.message_bytes(self.sizes())?))
    }

    // What each leaf has compressed.
    #[tactic(auto, unfolding(crate::specs::State::leaf_counted))]
    pub fn leaf_count(self) -> Result<LeafCount, Refusal>
        ensures { as_leaf_count_answer result ≡ leaf_counted self }
    {
        BOUNDS.check(self.sizes())?;
        Ok(self.count)
    }

    // The bytes that wait.
    #[tactic(auto, unfolding(crate::specs::State::buffered_in))]
    pub fn buffered(self) -> Result<usize, Refusal>
        ensures { as_buffered_answer result ≡ buffered_in self }
    {
        BOUNDS.check(self.sizes())?;
        Ok(self.buf_len)
    }
}

impl Params {
    // What waits in the buffer in front of the message: a row of key blocks where there is a key.
    fn front(self) -> [u8; BUFFER]
        requires { self.key_length ≤ 64 }
        ensures { result ≡ pad 1024 (front self) }
    {
        if self.key_length == 0 {
            return zeroed();
        }
        let key = self.key;
        key_row(padded(&key[..self.key_length as usize]))
    }

    // The state of no message bytes.
    pub(crate) fn with_params(self) -> State
        requires { self.key_length ≤ 64 }
        ensures { result ≡ fresh self }
    {
        let is_keyed = self.key_length > 0;
        State {
            leaves: leaf_words(self.hash_length, self.key_length),
            root_words: root_words(self.hash_length, self.key_length),
            buf: self.front(),
            buf_len: if is_keyed { ROW } else { 0 },
            count: LeafCount(0),
            hash_length: self.hash_length,
            is_keyed,
        }
    }

    #[tactic(auto, using(crate::proofs::Setters::key_short), unfolding(crate::specs::State::opened))]
    pub fn to_state(self) -> Result<State, Refusal>
        ensures { as_state_answer zero_state result ≡ opened self }
    {
        self.check()?;
        Ok(self.with_params())
    }
}
