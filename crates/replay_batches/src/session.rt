// What a script has at hand between two lines for its calls on jobs and a bank, and the calls on it, with the current parameters.
// The record that a call hands back becomes the current one; where it refused, what a refusal leaves does.
ghost use Rattle.std.specs.Prelude.{◌≡◌, replicate};
ghost use Rattle.bank.specs.Slots.{empty_bank};
ghost use Rattle.many.specs.Job.{zero_job};

use crate::call::{BankCall, Call, JobCall};
use bank::{Bank, MOST_RECORDS, Piece};
use bank_lent::update_many_of_array;
use blake2b::Params;
use many::{HashManyJob, MOST_JOBS, hash_many};
use many_held::hash_through_job;
use refusals::BatchRefusal;
use replay::{digest_shown, record_kept, value_shown, written_shown};
use replay_text::{Answer, ROOM, Shown};

#[derive(Clone, Copy)]
pub struct Session {
    pub(crate) jobs: [HashManyJob; MOST_JOBS],
    pub(crate) bank: Bank,
    // The records of the next batch.
    pub(crate) pieces: [Piece; MOST_RECORDS],
}

// A batch's records, which become the current ones. A refused batch leaves those it was over.
fn batch_kept<T: Copy>(current: &mut T, answer: Result<T, BatchRefusal>) -> Answer<'static> {
    match answer {
        Ok(records) => {
            *current = records;
            Answer::accepted(Shown::Index(0))
        }
        Err(BatchRefusal { refusal, index }) => Answer {
            number: refusal.number(),
            shown: Shown::Index(index),
        },
    }
}

// The output is filled beforehand, so that untouched bytes are seen.
fn digest_to<'r>(bank: Bank, slot: usize, length: usize, room: &'r mut [u8; ROOM]) -> Answer<'r> {
    room.fill(0xA5);
    let output = room.get_mut(..length).unwrap_or_default();
    written_shown(bank.digest_to(slot, output), output)
}

impl Session {
    pub fn new() -> Self
        ensures jobs { result.jobs ≡ replicate 16 zero_job }
        ensures bank { result.bank ≡ empty_bank }
        ensures pieces { result.pieces ≡ replicate 16 (record { slot = 0; start = 0; length = 0 }) }
    {
        Session {
            jobs: [HashManyJob::zero(); MOST_JOBS],
            bank: Bank::new(),
            pieces: [Piece::default(); MOST_RECORDS],
        }
    }

    // The bytes that the answer shows are written to the room.
    pub fn run<'r>(
        &mut self,
        params: Params,
        call: Call<'_>,
        room: &'r mut [u8; ROOM],
    ) -> Answer<'r> {
        match call {
            Call::Job(call) => self.on_job(params, call, room),
            Call::Bank(call) => self.on_bank(params, call, room),
        }
    }

    fn on_job<'r>(
        &mut self,
        params: Params,
        call: JobCall<'_>,
        room: &'r mut [u8; ROOM],
    ) -> Answer<'r> {
        let jobs = self.jobs;
        match call {
            JobCall::New {
                place,
                start,
                length,
                bytes,
            } => {
                let answer = HashManyJob::new(params, bytes, start, length);
                record_kept(&mut self.jobs[place.index], answer, HashManyJob::zero())
            }
            JobCall::Run { used, bytes } => batch_kept(
                &mut self.jobs,
                hash_many(jobs, used, bytes),
            ),
            JobCall::Hash(place) => digest_shown(jobs[place.index].to_hash(), room),
            JobCall::Held(bytes) => digest_shown(hash_through_job(params, bytes), room),
        }
    }

    fn on_bank<'r>(
        &mut self,
        params: Params,
        call: BankCall<'_>,
        room: &'r mut [u8; ROOM],
    ) -> Answer<'r> {
        let bank = self.bank;
        match call {
            BankCall::New => record_kept(&mut self.bank, Ok(Bank::new()), bank),
            BankCall::Open(slot) => record_kept(&mut self.bank, bank.open(slot, params), bank),
            BankCall::Update { slot, message } => record_kept(
                &mut self.bank,
                bank.update(slot, message),
                bank,
            ),
            BankCall::Close(slot) => record_kept(&mut self.bank, bank.close(slot), bank),
            BankCall::Piece(place, piece) => {
                self.pieces[place.index] = piece;
                Answer::accepted(Shown::Nothing)
            }
            BankCall::UpdateMany { used, bytes } => {
                batch_kept(&mut self.bank, bank.update_many(self.pieces, used, bytes))
            }
            BankCall::UpdateLent { used, bytes } => {
                batch_kept(
                    &mut self.bank,
                    update_many_of_array(bank, self.pieces, used, bytes),
                )
            }
            BankCall::Digest(slot) => digest_shown(bank.digest(slot), room),
            BankCall::DigestTo { slot, length } => digest_to(bank, slot, length, room),
            BankCall::Count(slot) => value_shown(bank.count(slot), Shown::Count),
        }
    }
}
