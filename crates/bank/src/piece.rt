// A record of a batch: for which slot, and which part of the batch's data.
// Open to callers, who make them; a bad one is refused with 7, 8 or 9.
ghost use Rattle.std.specs.Prelude.{◌≡◌, ◌+◌, ◌≤◌, OnOk};
ghost use Rattle.refusals.specs.Numbers.{piece_ok};
ghost use Rattle.refusals.specs.Answers.{number_in};
ghost use Rattle.bank.specs.Rules.{place_fault};

use refusals::{Refusal, piece_ok};

#[derive(Clone, Copy, Default)]
pub struct Piece {
    pub slot: usize,
    pub start: usize,
    pub length: usize,
}

impl Piece {
    // What is wrong with a record at its slot, before its bytes are taken.
    #[tactic(auto, using(refusals::proofs::Pieces::inside), unfolding(crate::specs::Rules::place_fault))]
    pub(crate) fn check(self, is_open: bool, data_length: usize) -> Result<(), Refusal>
        ensures number { number_in result ≡ place_fault is_open (piece_ok self.start self.length data_length) }
        ensures inside { OnOk result (self.start + self.length ≤ data_length) }
    {
        if !is_open {
            return Err(Refusal::Closed);
        }
        if !piece_ok(self.start, self.length, data_length) {
            return Err(Refusal::Piece);
        }
        Ok(())
    }
}
