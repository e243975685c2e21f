// What a call is answered: the number of its refusal, or 0, and what is shown of what it hands back: zeros where it refused.
// The bytes of a digest and what else is shown by length and bytes are written to a lent room.
ghost use Rattle.std.specs.Prelude.{◌≡◌, ◌≤◌, length};
ghost use Rattle.std.specs.Result.{ResultUnwrapsOrElse};
ghost use Rattle.refusals.specs.Answers.{number_in, value_in};
ghost use Rattle.hash.specs.Answers.{zero_hash};
ghost use Rattle.replay.specs.Shown.{ShowsDigest};
ghost use Rattle.replay_text.specs.declared.answer.Shown.TheVariants.{Nothing, Bytes};

use blake2b::Hash;
use refusals::{Refusal, number_in};
use replay_text::{Answer, ROOM, Shown};

pub fn value_shown<'r, T: Copy + Default, F: FnOnce(T) -> Shown<'r>>(
    answer: Result<T, Refusal>,
    show: F,
) -> Answer<'r>
    requires { F.IsAlwaysCallable show }
    ensures number { result.number ≡ number_in answer }
    ensures shown { (value : T) × ResultUnwrapsOrElse answer T.Default.is_default value × F.post show value result.shown }
{
    Answer {
        number: number_in(&answer),
        shown: show(answer.unwrap_or_default()),
    }
}

// What a call wrote, and its output or a part of it.
pub fn written_shown<'r>(answer: Result<usize, Refusal>, bytes: &'r [u8]) -> Answer<'r>
    ensures number { result.number ≡ number_in answer }
    ensures shown { result.shown ≡ Bytes (value_in 0 answer) bytes.entry }
{
    value_shown(answer, |length| Shown::Bytes { length, bytes })
}

// A record that becomes the current one. Where the call refused, `left` does.
pub fn record_kept<T: Copy>(current: &mut T, answer: Result<T, Refusal>, left: T) -> Answer<'static>
    ensures kept { current.new ≡ value_in left answer }
    ensures number { result.number ≡ number_in answer }
    ensures shown { result.shown ≡ Nothing }
{
    *current = answer.unwrap_or(left);
    Answer {
        number: number_in(&answer),
        shown: Shown::Nothing,
    }
}

pub fn digest_shown<'r>(answer: Result<Hash, Refusal>, room: &'r mut [u8; ROOM]) -> Answer<'r>
    ensures number { result.number ≡ number_in answer }
    ensures shown { ShowsDigest (value_in zero_hash answer) room.old result.shown }
{
    let hash = answer.unwrap_or(Hash::zero());
    let length = hash.write_bytes(room).unwrap_or(0);
    let bytes = hash.written_bytes(room);
    Answer {
        number: number_in(&answer),
        shown: Shown::Bytes { length, bytes },
    }
}

// Bytes that are no digest.
pub(crate) fn bytes_shown<'r>(bytes: &[u8], room: &'r mut [u8; ROOM]) -> Answer<'r>
    requires { length bytes.now ≤ ROOM }
{
    let length = bytes.len();
    let shown = &mut room[..length];
    shown.copy_from_slice(bytes);
    Answer::accepted(Shown::Bytes {
        length,
        bytes: shown,
    })
}
