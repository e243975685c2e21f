// The report of an input that is read piece by piece: five lines of it, or the one line that says it can't be read.
// It opens its state itself, so that the lengths of digest and key are not the caller's to choose.
ghost use Rattle.std.specs.Prelude.{◌≡◌, true, false, length, MatchResult};
ghost use Rattle.refusals.specs.declared.refusal.Refusal.TheVariants.{Record};
ghost use Rattle.hash.specs.Hash.{hash_in_range, digest_of};
ghost use Rattle.hash.specs.Answers.{as_length_answer};
ghost use Rattle.blake2b_state.specs.State.{state_in_range};
ghost use Rattle.report_text.specs.Answers.{as_got, as_reading};
ghost use Rattle.report_text.specs.Lines.{five_lines};
ghost use Rattle.report_text.specs.Report.{begun, taken, failed, after_reading, lines_of, text_answered, text_over};

use crate::lines::Lines;
use blake2b::State;
use hash::{Hash, OUTBYTES, write};
use refusals::Refusal;
use std::io;
use std::ops::ControlFlow;

#[derive(Clone, Copy)]
pub struct Report {
    pub(crate) state: State,
    // No read failed, and the state refused no piece.
    pub(crate) readable: bool,
}

// The lines of a message of so many bytes.
fn five_lines(hash: Hash, count: u64) -> Lines
    requires { hash_in_range hash ≡ true }
    ensures { result.text.items ≡ five_lines (length (digest_of hash)) 0 count (digest_of hash) }
{
    let length = hash.len().unwrap();
    let mut digits = [0; 2 * OUTBYTES];
    let n = hash.write_hex(&mut digits).unwrap();
    Lines::new()
        .line(b"alg", b"blake2b")
        .number(b"hash_length", length as u64)
        .number(b"key_length", 0)
        .number(b"count", count)
        .line(b"digest", &digits[..n])
}

impl Report {
    // An output of so many bytes has room for every text.
    pub const ROOM: usize = 256;

    #[tactic(auto, using(blake2b::proofs::Plain::new_is_default))]
    pub fn new() -> Self
        ensures { result ≡ begun }
    {
        Report {
            state: State::new(),
            readable: true,
        }
    }

    // A piece was read.
    pub fn take(self, piece: &[u8]) -> Self
        ensures { result ≡ taken self piece.now }
    {
        match self.state.update(piece) {
            Ok(state) => Report { state, ..self },
            Err(_) => self.fail(),
        }
    }

    // A read failed.
    pub fn fail(self) -> Self
        ensures { result ≡ failed self }
    {
        Report {
            readable: false,
            ..self
        }
    }

    // What a read to the front of a buffer answered: a number of bytes, and 0 at the end of the input.
    // It breaks with the last report there and where the read failed, and goes on with the report of one piece more.
    #[tactic(auto, using(crate::proofs::Readings::read_took), unfolding(crate::specs::Report::after_reading))]
    pub fn read(self, got: io::Result<usize>, buffer: &[u8]) -> ControlFlow<Self, Self>
        ensures { as_reading result ≡ after_reading self (as_got got) buffer.now }
    {
        match got {
            Ok(0) => ControlFlow::Break(self),
            Ok(n) => ControlFlow::Continue(self.take(&buffer[..n.min(buffer.len())])),
            Err(_) => ControlFlow::Break(self.fail()),
        }
    }

    fn lines(self) -> Result<Lines, Refusal>
        ensures { MatchResult result
            (λ made. (state_in_range self.state ≡ true) × (made.text.items ≡ lines_of self))
            (λ e. (state_in_range self.state ≡ false) × (e ≡ Record)) }
    {
        let count = self.state.count()?;
        if !self.readable {
            return Ok(Lines::new().line(b"result", b"unreadable"));
        }
        let hash = self.state.finalize()?;
        Ok(five_lines(hash, count))
    }

    // The text, to the front of the output.
    #[tactic(auto, using(blake2b_state::proofs::Exits::handed_on), unfolding(crate::specs::Report::text_answered, crate::specs::Report::text_over))]
    pub fn text(self, out: &mut [u8]) -> Result<usize, Refusal>
        ensures { (as_length_answer result ≡ text_answered self (length out.old)) × (out.new ≡ text_over self out.old) }
    {
        let lines = self.lines()?;
        write(lines.as_slice(), out)
    }
}
