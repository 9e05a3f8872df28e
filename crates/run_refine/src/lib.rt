// What a hand-in does after a stop, by itself: the final draws begin, or the palette is refined four times.
#![tactic(auto)]

ghost use Rattle.std.specs.Prelude.{◌≡◌, ◌≤◌};
ghost use Rattle.job.specs.Job.{job_in};
ghost use Rattle.run_refine.specs.Refines.{refined_times, hints_times, final_draws, Refinable};

use job::Job;
use run_stages::{Record, Stage};

// The final draws begin; with fewer than ten samples there are none, and the next stop is reached at once.
#[tactic(auto, unfolding(crate::specs::Refines::final_draws))]
pub fn final_draws(n: usize, r: Record) -> Record
    requires { n ≤ 16384 }
    ensures { result ≡ final_draws n r }
{
    let left = 10 * cycle::base_iterations(n);
    if left == 0 {
        return r.placed(Stage::Refining as u64, 0, 0);
    }
    r.placed(Stage::FinalDraws as u64, 0, left)
}

// Four passes of refinement.
pub fn refine_four(job: &Job, palette: &mut [f32], hints: &mut [u32])
    requires { Refinable (job_in job.now) hints.old palette.old }
    ensures { (palette.new ≡ refined_times (job_in job.now) 4 palette.old)
        ×
        (hints.new ≡ hints_times (job_in job.now) 4 palette.old
        hints.old) }
{
    for _ in 0..4usize {
        quantizer_refine::refine(job, palette, hints);
    }
}
