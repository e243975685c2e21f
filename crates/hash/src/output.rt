// A text to the front of a lent output, whole or not at all: document 01's refusal 11, for whatever is written.
// The answer is by one rule, and what is written or handed back goes by the answer.
ghost use Rattle.std.specs.Prelude.{◌≡◌, length};
ghost use Rattle.hash.specs.Answers.{as_length_answer};
ghost use Rattle.hash.specs.Output.{wrote, wrote_over, wrote_part};

use guts::store;
use refusals::Refusal;

// Of n bytes for an output of `room` bytes: how many are written.
fn room_for(n: usize, room: usize) -> Result<usize, Refusal>
    ensures { as_length_answer result ≡ wrote n room }
{
    if room < n {
        return Err(Refusal::Output);
    }
    Ok(n)
}

#[tactic(auto, using(laws_words::proofs::Stores::paste_front))]
pub fn write(text: &[u8], out: &mut [u8]) -> Result<usize, Refusal>
    ensures { (as_length_answer result ≡ wrote (length text.now) (length out.old)) × (out.new ≡ wrote_over text.now out.old) }
{
    let n = room_for(text.len(), out.len())?;
    store(out, 0, text);
    Ok(n)
}

// The part of an output that n bytes were written to: nothing where that was refused.
pub(crate) fn written<'a>(n: usize, out: &'a [u8]) -> &'a [u8]
    ensures { result.now ≡ wrote_part n out.now }
{
    let end = room_for(n, out.len()).unwrap_or(0);
    &out[..end]
}
