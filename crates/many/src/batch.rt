// A batch of jobs over one lent buffer: all are checked, the first bad one decides, and only then is any run.
// Each result stands at its job's place.
ghost use Rattle.std.specs.Prelude.{◌≡◌, length, map};
ghost use Rattle.refusals.specs.Numbers.{accepted};
ghost use Rattle.many.specs.Answers.{as_first_bad, as_jobs_answer};
ghost use Rattle.many.specs.Job.{run_over};
ghost use Rattle.many.specs.Batch.{most_jobs, first_bad, jobs_run};

use crate::placed::HashManyJob;
use refusals::{BatchRefusal, Refusal};

// A batch has at most so many jobs.
pub const MOST_JOBS: usize = 16;

// Whether every job may be run: else the first bad one's refusal, and its index.
fn check_jobs(jobs: &[HashManyJob], data_length: usize) -> Result<(), BatchRefusal>
    ensures { as_first_bad result ≡ first_bad data_length 0 jobs.now }
{
    for (index, job) in jobs.iter().enumerate() {
        job.check(data_length)
            .map_err(|refusal| BatchRefusal { refusal, index })?;
    }
    Ok(())
}

// Every job, run at its own place: the one place where an engine takes a batch's jobs.
fn run_jobs(jobs: &mut [HashManyJob], data: &[u8])
    requires { (first_bad (length «data».now) 0 jobs.old).number ≡ accepted }
    ensures { jobs.new ≡ map (run_over «data».now) jobs.old }
{
    for job in jobs.iter_mut() {
        *job = job.run_over(data);
    }
}

// The jobs, of which the first `used` were run. Running twice has no effect: a finished job is not run again.
pub fn hash_many(
    mut jobs: [HashManyJob; MOST_JOBS],
    used: usize,
    data: &[u8],
) -> Result<[HashManyJob; MOST_JOBS], BatchRefusal>
    ensures { as_jobs_answer jobs result ≡ jobs_run most_jobs jobs used «data».now }
{
    if used > MOST_JOBS {
        return Err(BatchRefusal {
            refusal: Refusal::Batch,
            index: 0,
        });
    }
    let batch = &mut jobs[..used];
    check_jobs(batch, data.len())?;
    run_jobs(batch, data);
    Ok(jobs)
}
