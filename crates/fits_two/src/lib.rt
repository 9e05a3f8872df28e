// The public call `best_two`, over a job of one tile and its palette.
// It first asks for the first rule broken, over shared slices, so that a refusal writes nothing.
#![tactic(auto)]

ghost use Rattle.std.specs.Prelude.{◌≡◌};
ghost use Rattle.job.specs.Job.{job_in};
ghost use Rattle.answer.specs.Outcome.{outcome};
ghost use Rattle.answer.specs.Refusals.{by_number};
ghost use Rattle.fits_outcome.specs.Pairs.{pair_def};

use answer::Refusal;
use job::Job;
use stats::Two;

// The subpalette that fits the one tile of a job best and its distance, and the next best with its own, the best itself and infinity where
// there is none; its hint then names the best. An empty tile is answered: 0 at 0, and 1 at 0, or 0 at infinity if s is 1.
pub fn best_two(job: &Job, palette: &[f32], hints: &mut [u32]) -> Result<Two, Refusal>
    ensures { outcome (by_number result) hints.new ≡ pair_def (job_in job.now) palette.now hints.old }
{
    fits_check::check_one(job, palette, hints.len())?;
    Ok(palette_tile::tile_two(job, palette, job.sizes.s, job.sizes.c, hints, 0))
}
