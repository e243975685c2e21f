// One slot: a state, and whether the slot is open. A closed slot is zeros.
// The bank has checked 14 and 7 before a slot is asked.
ghost use Rattle.std.specs.Prelude.{◌≡◌, true, false, IfOk, IfErr};
ghost use Rattle.refusals.specs.declared.refusal.Refusal.TheVariants.{Closed};
ghost use Rattle.blake2b.specs.Params.{in_range};
ghost use Rattle.hash.specs.Answers.{as_hash_answer};
ghost use Rattle.blake2b_state.specs.Answers.{as_count_answer};
ghost use Rattle.bank.specs.Answers.{as_slot_answer};
ghost use Rattle.bank.specs.Rules.{reply, fed, opening, update, digest, count, close};
ghost use Rattle.bank.specs.Slots.{closed_slot, slot_good, slots, slot_answer, hash_answer, count_answer};

use crate::piece::Piece;
use blake2b::{Hash, Params, State};
use refusals::Refusal;

#[derive(Clone, Copy)]
pub struct Slot {
    pub(crate) is_open: bool,
    pub(crate) state: State,
}

impl Slot {
    pub(crate) fn closed() -> Self
        ensures { result ≡ closed_slot }
    {
        Slot {
            is_open: false,
            state: State::zero(),
        }
    }

    // Whether the record keeps its stated ranges: a closed one does.
    #[tactic(auto, unfolding(crate::specs::Slots::slot_good))]
    pub(crate) fn in_range(self) -> bool
        ensures { result ≡ slot_good self }
    {
        !self.is_open || self.state.in_range()
    }

    #[tactic(auto, unfolding(crate::specs::Rules::reply, blake2b::specs::Member::opened))]
    pub(crate) fn open(self, params: Params) -> Result<Slot, Refusal>
        requires { in_range params ≡ true }
        ensures { as_slot_answer self result ≡ slot_answer (reply slots self (opening params)) }
    {
        if self.is_open {
            return Err(Refusal::Open);
        }
        let state = params.to_state()?;
        Ok(Slot {
            is_open: true,
            state,
        })
    }

    // The state of an open slot.
    fn opened(self) -> Result<State, Refusal>
        ensures ok { IfOk result (λ state. (self.is_open ≡ true) × (state ≡ self.state)) }
        ensures err { IfErr result (λ refusal. (self.is_open ≡ false) × (refusal ≡ Closed)) }
    {
        if !self.is_open {
            return Err(Refusal::Closed);
        }
        Ok(self.state)
    }

    #[tactic(auto, unfolding(crate::specs::Rules::reply))]
    pub(crate) fn update(self, input: &[u8]) -> Result<Slot, Refusal>
        ensures { as_slot_answer self result ≡ slot_answer (reply slots self (update input.now)) }
    {
        let state = self.opened()?.update(input)?;
        Ok(Slot {
            is_open: true,
            state,
        })
    }

    // A record of a batch that is for this slot.
    #[tactic(auto, using(crate::proofs::Replies::piece_is), unfolding(crate::specs::Rules::fed, crate::specs::Rules::reply, crate::specs::Rules::place_fault))]
    pub(crate) fn feed(self, piece: Piece, data: &[u8]) -> Result<Slot, Refusal>
        ensures { as_slot_answer self result ≡ slot_answer (fed slots self piece «data».now) }
    {
        piece.check(self.is_open, data.len())?;
        self.update(&data[piece.start..piece.start + piece.length])
    }

    pub(crate) fn digest(self) -> Result<Hash, Refusal>
        ensures { as_hash_answer result ≡ hash_answer (reply slots self digest).answer }
    {
        self.opened()?.finalize()
    }

    #[tactic(auto, unfolding(crate::specs::Rules::reply))]
    pub(crate) fn count(self) -> Result<u64, Refusal>
        ensures { as_count_answer result ≡ count_answer (reply slots self count).answer }
    {
        self.opened()?.count()
    }

    #[tactic(auto, unfolding(crate::specs::Rules::reply))]
    pub(crate) fn close(self) -> Result<Slot, Refusal>
        ensures { as_slot_answer self result ≡ slot_answer (reply slots self close) }
    {
        self.opened()?;
        Ok(Slot::closed())
    }
}
