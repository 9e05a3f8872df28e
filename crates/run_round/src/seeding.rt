// What is sought when a round of seeding is closed: the subpalette of greatest summed distance, which the next round duplicates.
// The order of the samples is not touched, so it is left out.
ghost use Rattle.job.specs.Job.{job_in};
ghost use Rattle.run_round.specs.Seeds.{Seeking, Sought};

use job::Job;
use run_stages::{Record, Stage};

// In a round of seeding the subpalette to copy next, that of greatest summed distance; the hints are written. In other rounds nothing is done,
// and 0 stands for none: only a next round of seeding reads the answer.
pub fn seek(job: &Job, palette: &[f32], hints: &mut [u32], r: Record) -> usize
    requires { Seeking (job_in job.now) hints.old palette.now r }
    ensures { Sought (job_in job.now) hints.old palette.now r result hints.new }
{
    match Stage::try_from(r.stage) {
        Ok(Stage::Seeding) => {
            let subs = r.rounds as usize + 2;
            quantizer_worst::worst(job, palette, subs, hints)
        }
        _ => 0,
    }
}
