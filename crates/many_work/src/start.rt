// How the work of a job starts: with a key its block is compressed, and without input it is finished by that.
ghost use Rattle.std.specs.Prelude.{◌≡◌, ◌+◌, leb};
ghost use Rattle.refusals.specs.Numbers.{limit};
ghost use Rattle.many_work.specs.Work.{key_bytes, begun};

use crate::work::Work;
use blake2b::Params;
use refusals::LIMIT;

// The bytes of the key block, where there is one.
#[tactic(auto, unfolding(crate::specs::Work::key_bytes))]
fn key_bytes(params: Params) -> u64
    ensures { result ≡ key_bytes params }
{
    if params.is_keyed() {
        Params::BLOCKBYTES as u64
    } else {
        0
    }
}

// Whether the key block and so many bytes stay within the limit of a total.
#[tactic(auto, using(crate::proofs::Works::room_left), unfolding(crate::specs::Work::key_bytes, refusals::specs::Numbers::limit))]
pub fn has_room(params: Params, length: usize) -> bool
    ensures { result ≡ leb (key_bytes params + length) limit }
{
    length as u64 <= LIMIT - key_bytes(params)
}

// The work for an input of so many bytes.
#[tactic(auto, unfolding(crate::specs::Work::key_bytes, crate::specs::Work::first_words))]
pub fn begin(params: Params, length: usize) -> Work
    ensures { result ≡ begun params length }
{
    let work = Work {
        words: params.to_words(),
        count: 0,
        last_node: params.is_last_node(),
        hash_length: params.digest_length(),
        finished: params.is_keyed() && length == 0,
    };
    if !params.is_keyed() {
        return work;
    }
    Work {
        words: work.compressed(&params.key_block(), work.finished),
        count: key_bytes(params),
        ..work
    }
}
