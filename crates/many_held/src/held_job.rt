// A job beside the slice that it keeps: what is done to its work is the crate `many_work`'s.
ghost use Rattle.std.specs.Prelude.{◌≡◌};
ghost use Rattle.refusals.specs.Answers.{number_in, value_in};
ghost use Rattle.hash.specs.Answers.{as_hash_answer};
ghost use Rattle.blake2b.specs.Member.{hashed};
ghost use Rattle.many_work.specs.Work.{zero_work};
ghost use Rattle.many_held.specs.Answers.{as_job_answer};
ghost use Rattle.many_held.specs.Steps.{unless_refused};
ghost use Rattle.many_held.specs.HeldJob.{holding, made_job, ran_job, job_hash};
ghost use Rattle.many_held.specs.declared.held_job.HashManyJob.{HashManyJob};

use blake2b::Params;
use hash::Hash;
use many_work::{Work, begin, has_room};
use refusals::Refusal;

#[derive(Clone, Copy)]
pub struct HashManyJob<'a> {
    pub(crate) work: Work,
    pub(crate) input: &'a [u8],
}

impl<'a> HashManyJob<'a> {
    #[tactic(auto, unfolding(crate::specs::Steps::made_work))]
    pub fn new(params: Params, input: &'a [u8]) -> Result<Self, Refusal>
        ensures { as_job_answer (holding zero_work input.entry) result ≡ made_job params input.entry }
    {
        if !params.in_range() {
            return Err(Refusal::Record);
        }
        if !has_room(params, input.len()) {
            return Err(Refusal::Total);
        }
        Ok(HashManyJob {
            work: begin(params, input.len()),
            input,
        })
    }

    // A finished job is not run again.
    #[tactic(auto, unfolding(crate::specs::Steps::ran_work, many_work::specs::Work::run_on, many_work::specs::Work::work_in_range, refusals::specs::Numbers::limit))]
    pub fn run(self) -> Result<Self, Refusal>
        ensures { as_job_answer self.entry result ≡ ran_job self.entry }
    {
        if !self.work.in_range(self.input.len()) {
            return Err(Refusal::Record);
        }
        if self.work.finished {
            return Ok(self);
        }
        Ok(HashManyJob {
            work: self.work.run(self.input),
            input: self.input,
        })
    }

    // The digest of a finished job.
    pub fn to_hash(self) -> Result<Hash, Refusal>
        ensures { as_hash_answer result ≡ job_hash self.entry }
    {
        self.work.to_hash(self.input.len())
    }
}

// A job that is made, run and asked, for callers that hold no job: it answers what `Params::hash` does.
pub fn hash_through_job(params: Params, input: &[u8]) -> Result<Hash, Refusal>
    ensures { as_hash_answer result ≡ hashed params input.now }
{
    unless_refused(HashManyJob::new(params, input))
}

// A refusal of the making of a job is the answer, whichever it is; else the answer is what the digest of that job is, once it is run.
// It stands by itself so that this is promised of every refusal: `new` refuses no slice with Total, as none is that long.
// Where the making is refused there is no job: the answer is the same whatever z stands in its place.
#[tactic(auto, unfolding(crate::specs::Steps::unless_refused, crate::specs::Steps::ran_work, many_work::specs::Work::work_hash))]
fn unless_refused(made: Result<HashManyJob<'_>, Refusal>) -> Result<Hash, Refusal>
    ensures { (z : HashManyJob) → as_hash_answer result ≡ unless_refused (number_in made.entry) (job_hash (ran_job (value_in z made.entry)).job) }
{
    made?.run()?.to_hash()
}
