// How a call with one tile is refused: the job's rules, one tile, a hint for it, and a colour where the call wants one.
// Assumes nothing of the job: it is what a stranger wrote.
#![tactic(auto)]

ghost use Rattle.std.specs.Prelude.{◌≡◌};
ghost use Rattle.answer.specs.Refusals.{refusal_of};
ghost use Rattle.job.specs.Job.{job_in};
ghost use Rattle.fits_check.specs.One.{one_answer, single_answer};

use answer::Refusal;
use job::Job;

// The first rule that a call with one tile and so many hints breaks.
pub fn check_one(job: &Job, palette: &[f32], hints: usize) -> Result<(), Refusal>
    ensures { refusal_of result ≡ one_answer (job_in job.now) palette.now hints }
{
    if job.sizes.t != 1 {
        return Err(Refusal::Sizes);
    }
    job_check::check_job(job, palette, hints == job.sizes.t)
}

// The same for the single fit, which wants a colour.
pub fn check_single(job: &Job, palette: &[f32], hints: usize) -> Result<(), Refusal>
    ensures { refusal_of result ≡ single_answer (job_in job.now) palette.now hints }
{
    let one = check_one(job, palette, hints);
    one?;
    if job.is_empty(0) {
        return Err(Refusal::EmptyTile);
    }
    Ok(())
}
