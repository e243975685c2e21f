// A hash job: its work, and where its input stands in a buffer that is lent again with the batch.
// Made, refused, run and asked here; the work itself is the crate `many_work`'s.
ghost use Rattle.std.specs.Prelude.{◌≡◌, length};
ghost use Rattle.refusals.specs.Numbers.{accepted};
ghost use Rattle.refusals.specs.Answers.{number_in};
ghost use Rattle.hash.specs.Answers.{as_hash_answer};
ghost use Rattle.many.specs.Answers.{as_job_answer};
ghost use Rattle.many.specs.Job.{zero_job, made_job, run_over, job_refusal, job_hash};

use blake2b::Params;
use hash::Hash;
use many_work::{Work, begin, has_room};
use refusals::{Refusal, piece_ok};

#[derive(Clone, Copy)]
pub struct HashManyJob {
    pub(crate) work: Work,
    pub(crate) start: usize,
    pub(crate) length: usize,
}

impl HashManyJob {
    // What an unused place of a batch may hold: a job that every call refuses.
    pub fn zero() -> Self
        ensures { result ≡ zero_job }
    {
        HashManyJob {
            work: Work::zero(),
            start: 0,
            length: 0,
        }
    }

    // A job whose input is what the range holds in the data of the batch that runs it.
    #[tactic(auto, unfolding(crate::specs::Job::made_job))]
    pub fn new(params: Params, data: &[u8], start: usize, length: usize) -> Result<Self, Refusal>
        ensures { as_job_answer zero_job result ≡ made_job params «data».now start length }
    {
        if !params.in_range() {
            return Err(Refusal::Record);
        }
        if !piece_ok(start, length, data.len()) {
            return Err(Refusal::Piece);
        }
        if !has_room(params, length) {
            return Err(Refusal::Total);
        }
        Ok(HashManyJob {
            work: begin(params, length),
            start,
            length,
        })
    }

    // Whether a batch over so many bytes of data may run the job.
    #[tactic(auto, unfolding(crate::specs::Job::job_refusal))]
    pub(crate) fn check(self, data_length: usize) -> Result<(), Refusal>
        ensures { number_in result ≡ job_refusal data_length self }
    {
        if !self.work.in_range(self.length) {
            return Err(Refusal::Record);
        }
        if self.work.finished || piece_ok(self.start, self.length, data_length) {
            return Ok(());
        }
        Err(Refusal::Piece)
    }

    // A job of a batch over the data: run where it is not finished.
    #[tactic(auto, unfolding(crate::specs::Job::job_refusal, refusals::specs::Numbers::piece_ok, refusals::specs::Numbers::limit, many_work::specs::Work::work_in_range, many_work::specs::Work::run_on))]
    pub(crate) fn run_over(self, data: &[u8]) -> Self
        requires { job_refusal (length «data».now) self ≡ accepted }
        ensures { result ≡ run_over «data».now self }
    {
        if self.work.finished {
            return self;
        }
        let end = self.start + self.length;
        HashManyJob {
            work: self.work.run(&data[self.start..end]),
            ..self
        }
    }

    // The digest of a finished job.
    pub fn to_hash(self) -> Result<Hash, Refusal>
        ensures { as_hash_answer result ≡ job_hash self }
    {
        self.work.to_hash(self.length)
    }
}
