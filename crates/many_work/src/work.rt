// What a job is beside its input: the words so far, and what its run and its digest need.
ghost use Rattle.std.specs.Prelude.{◌≡◌, ◌&&◌, ◌+◌, ◌^◌, ◌<◌, length};
ghost use Rattle.definitions.specs.Family.{BLAKE2b};
ghost use Rattle.laws_blocks.specs.Blocks.{through_blocks};
ghost use Rattle.hash.specs.Answers.{as_hash_answer};
ghost use Rattle.blake2b_state.specs.Sizes.{blockbytes};
ghost use Rattle.many_work.specs.Work.{zero_work, work_in_range, ran, work_hash};

use guts::{Finalize, LastNode, Stride};
use hash::{Hash, is_digest_length};
use portable::compress1_loop;
use refusals::{LIMIT, Refusal};
use words::write_words;

#[derive(Clone, Copy)]
pub struct Work {
    pub words: [u64; 8],
    // The bytes that were compressed: those of the key block, where there is one.
    pub count: u64,
    pub last_node: bool,
    pub hash_length: u8,
    pub finished: bool,
}

impl Work {
    // The work of no job: it is out of range, with any input.
    #[tactic(auto, unfolding(laws_words::specs::Bytes::zeros))]
    pub fn zero() -> Self
        ensures { result ≡ zero_work }
    {
        Work {
            words: [0; 8],
            count: 0,
            last_node: false,
            hash_length: 0,
            finished: false,
        }
    }

    // Whether the record keeps its stated ranges, with an input of so many bytes.
    #[tactic(auto, using(crate::proofs::Works::room_left), unfolding(crate::specs::Work::work_in_range, refusals::specs::Numbers::limit))]
    pub fn in_range(self, length: usize) -> bool
        ensures { result ≡ work_in_range self length }
    {
        is_digest_length(self.hash_length as usize) && length as u64 <= LIMIT - self.count
    }

    // The words after the blocks of the input. Only a last run has flags.
    pub(crate) fn compressed(self, input: &[u8], last: bool) -> [u64; 8]
        requires { self.count + length input.now < 2 ^ 64 }
        ensures { result ≡ through_blocks BLAKE2b blockbytes self.words self.count last (last && self.last_node) input.now }
    {
        let run = compress1_loop(
            input,
            self.words,
            self.count,
            LastNode::from(self.last_node),
            Finalize::from(last),
            Stride::Serial,
        );
        run.words
    }

    // The one place where a job is run, on its input.
    pub fn run(self, input: &[u8]) -> Self
        requires { self.count + length input.now < 2 ^ 64 }
        ensures { result ≡ ran input.now self }
    {
        Work {
            words: self.compressed(input, true),
            finished: true,
            ..self
        }
    }

    // The digest of a finished job whose input has so many bytes.
    #[tactic(auto, unfolding(crate::specs::Work::work_hash))]
    pub fn to_hash(self, length: usize) -> Result<Hash, Refusal>
        ensures { as_hash_answer result ≡ work_hash self length }
    {
        if !self.in_range(length) {
            return Err(Refusal::Record);
        }
        if !self.finished {
            return Err(Refusal::Unfinished);
        }
        let bytes = write_words(self.words);
        Hash::from_state(&bytes, self.hash_length as usize)
    }
}
