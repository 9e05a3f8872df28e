// What a round of replacing opens with; the palette is looked at before it, and after the tenth comes the stop.
// The order of the samples is not touched, so it is left out.
ghost use Rattle.std.specs.Prelude.{◌≡◌, []};
ghost use Rattle.job.specs.Job.{job_in};
ghost use Rattle.quantizer.specs.Course.{unsampled};
ghost use Rattle.run_stages.specs.State.{state_with};
ghost use Rattle.run_stages.specs.Stages.{open_replacing};
ghost use Rattle.run_keeping.specs.Closing.{Whole, Judging};
ghost use Rattle.run_turns.specs.Rounds.{replace_on};

use job::Job;
use run_stages::{Record, Stage};

// The weakest gives way, and a round of draws begins.
fn open_replacing(
    job: &Job,
    hints: &mut [u32],
    palette: &mut [f32],
    round: u64,
    r: Record,
) -> Record
    requires { Whole (job_in job.now) hints.old palette.old }
    ensures { state_with [] hints.new palette.new [] result
        ≡ open_replacing (unsampled job.now) round
        (state_with [] hints.old palette.old [] r) }
{
    quantizer_replace::replace_weakest(job, palette, hints);
    run_next::open_round(r, Stage::Replacing, round, job.sizes.n)
}

// The next of the ten rounds, numbered from 0, or the stop.
pub fn replace_on(
    job: &Job,
    hints: &mut [u32],
    palette: &mut [f32],
    least: &mut [f32],
    round: u64,
    r: Record,
) -> Record
    requires { Judging (job_in job.now) hints.old palette.old least.old round r }
    ensures { state_with [] hints.new palette.new least.new result
        ≡ replace_on (unsampled job.now) round
        (state_with [] hints.old palette.old least.old r) }
{
    let seen = run_keeping::look(job, hints, palette, least, round, r);
    if round < 10 {
        return open_replacing(job, hints, palette, round, seen);
    }
    run_keeping::enter_reducing(job.sizes, palette, least, seen)
}
