// The bank: sixteen slots by value. Every call checks 14 on the open slots first, then 7, then asks the slot.
// A batch works on a copy of the slots, so that a refused one leaves the caller's bank as it was.
ghost use Rattle.std.specs.Prelude.{◌≡◌, true, ◌<◌, set, OnOk};
ghost use Rattle.refusals.specs.Answers.{number_in};
ghost use Rattle.hash.specs.Answers.{as_hash_answer, as_length_answer};
ghost use Rattle.blake2b_state.specs.Answers.{as_count_answer};
ghost use Rattle.bank.specs.Answers.{as_bank_answer, as_batch_answer};
ghost use Rattle.bank.specs.Rules.{every, fault, on, update_many, opening, update, digest, digest_to, count, close};
ghost use Rattle.bank.specs.Slots.{slot_good, slots, slot_limit, empty_bank, told, bank_answer, batch_answer, hash_answer, count_answer, length_answer};

use crate::piece::Piece;
use crate::slot::Slot;
use blake2b::{Hash, Params};
use refusals::{BatchRefusal, Refusal};

pub const SLOTS: usize = 16;

// A batch has at most so many records.
pub const MOST_RECORDS: usize = 16;

#[derive(Clone, Copy)]
pub struct Bank {
    pub(crate) slots: [Slot; SLOTS],
}

impl Bank {
    // All slots are closed.
    pub fn new() -> Self
        ensures { result ≡ empty_bank }
    {
        Bank {
            slots: [Slot::closed(); SLOTS],
        }
    }

    // Whether every open slot keeps its stated ranges.
    fn in_range(&self) -> bool
        ensures { result ≡ every slot_good self.now.slots }
    {
        self.slots.iter().all(|slot| slot.in_range())
    }

    // What is wrong before a slot is asked: a record out of range, or a slot number.
    #[tactic(auto, unfolding(crate::specs::Rules::fault))]
    fn check(&self, slot: usize) -> Result<(), Refusal>
        ensures number { number_in result ≡ fault slots slot_limit self.now.slots true slot }
        ensures within { OnOk result (slot < slot_limit) }
    {
        if !self.in_range() {
            return Err(Refusal::Record);
        }
        if slot >= SLOTS {
            return Err(Refusal::Slot);
        }
        Ok(())
    }

    // The bank with another slot in one place.
    fn with(mut self, slot: usize, next: Slot) -> Bank
        requires { slot < slot_limit }
        ensures { result ≡ record { slots = set self.slots slot next } }
    {
        self.slots[slot] = next;
        self
    }

    pub fn open(self, slot: usize, params: Params) -> Result<Bank, Refusal>
        ensures { as_bank_answer self result ≡ bank_answer (told self (on slot (opening params))) }
    {
        if !params.in_range() {
            return Err(Refusal::Record);
        }
        self.check(slot)?;
        let next = self.slots[slot].open(params)?;
        Ok(self.with(slot, next))
    }

    pub fn update(self, slot: usize, input: &[u8]) -> Result<Bank, Refusal>
        ensures { as_bank_answer self result ≡ bank_answer (told self (on slot (update input.now))) }
    {
        self.check(slot)?;
        let next = self.slots[slot].update(input)?;
        Ok(self.with(slot, next))
    }

    pub fn digest(self, slot: usize) -> Result<Hash, Refusal>
        ensures { as_hash_answer result ≡ hash_answer (told self (on slot digest)).answer }
    {
        self.check(slot)?;
        self.slots[slot].digest()
    }

    // The digest's bytes, to the front of an output.
    pub fn digest_to(self, slot: usize, out: &mut [u8]) -> Result<usize, Refusal>
        ensures { (as_length_answer result ≡ length_answer (told self (on slot (digest_to out.old))).answer)
            × (out.new ≡ (told self (on slot (digest_to out.old))).answer.bytes) }
    {
        self.digest(slot)?.write_bytes(out)
    }

    pub fn count(self, slot: usize) -> Result<u64, Refusal>
        ensures { as_count_answer result ≡ count_answer (told self (on slot count)).answer }
    {
        self.check(slot)?;
        self.slots[slot].count()
    }

    pub fn close(self, slot: usize) -> Result<Bank, Refusal>
        ensures { as_bank_answer self result ≡ bank_answer (told self (on slot close)) }
    {
        self.check(slot)?;
        let next = self.slots[slot].close()?;
        Ok(self.with(slot, next))
    }

    // The first `used` records, over their data.
    pub fn update_many(
        self,
        pieces: [Piece; MOST_RECORDS],
        used: usize,
        data: &[u8],
    ) -> Result<Bank, BatchRefusal>
        ensures { as_batch_answer self result ≡ batch_answer (told self (update_many pieces used «data».now)) }
    {
        if !self.in_range() {
            return Err(BatchRefusal {
                refusal: Refusal::Record,
                index: 0,
            });
        }
        if used > MOST_RECORDS {
            return Err(BatchRefusal {
                refusal: Refusal::Batch,
                index: 0,
            });
        }
        let mut slots = self.slots;
        for (index, &piece) in pieces[..used].iter().enumerate() {
            if piece.slot >= SLOTS {
                return Err(BatchRefusal {
                    refusal: Refusal::Slot,
                    index,
                });
            }
            let next = slots[piece.slot]
                .feed(piece, data)
                .map_err(|refusal| BatchRefusal { refusal, index })?;
            slots[piece.slot] = next;
        }
        Ok(Bank { slots })
    }
}
