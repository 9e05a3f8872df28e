// The public call single fit, over a job of one tile and its palette.
// It first asks for the first rule broken, over shared slices, so that a refusal writes nothing.
#![tactic(auto)]

ghost use Rattle.std.specs.Prelude.{◌≡◌};
ghost use Rattle.job.specs.Job.{job_in};
ghost use Rattle.answer.specs.Outcome.{outcome};
ghost use Rattle.answer.specs.Refusals.{by_number};
ghost use Rattle.fits_outcome.specs.Fits.{single_def};

use answer::Refusal;
use job::Job;
use stats::Near;

// The subpalette that fits the one tile of a job best, and its distance; its hint then names it.
pub fn single_fit(job: &Job, palette: &[f32], hints: &mut [u32]) -> Result<Near, Refusal>
    ensures { outcome (by_number result) hints.new ≡ single_def (job_in job.now) palette.now hints.old }
{
    fits_check::check_single(job, palette, hints.len())?;
    Ok(palette_tile::tile_fit(job, palette, job.sizes.s, job.sizes.c, hints, 0))
}
