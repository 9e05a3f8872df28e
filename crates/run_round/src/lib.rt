// What closes a round, whatever its stage, and the settling of a run: all that needs no draw.
// The order and the samples are not read: a round's end leaves them out, and settling names them in what it promises.
#![tactic(auto)]

use job::Job;
use quantizer::Course;

pub mod first;
mod seeding;

ghost use Rattle.std.specs.Prelude.{◌≡◌, [], ◌≤◌};
ghost use Rattle.job.specs.Job.{job_in};
ghost use Rattle.quantizer.specs.Course.{course_in, unsampled};
ghost use Rattle.run_stages.specs.State.{state_with};
ghost use Rattle.run_stages.specs.Stages.{finish_round, settle};
ghost use Rattle.run_round.specs.Settles.{Standing, Closing, turn_after};

use run_stages::{Record, Stage};

// The turn after a round that is closed.
#[tactic(auto, unfolding(crate::specs::Settles::turn_after))]
fn turn_after(s: usize, c: usize, r: Record) -> u64
    requires { (s ≤ 16) × (1 ≤ s) × (c ≤ 16) × (r.rounds ≤ 16) }
    ensures { result ≡ turn_after s c r }
{
    match Stage::try_from(r.stage) {
        Ok(Stage::Seeding) => r.rounds + 1,
        Ok(Stage::Growing) => s as u64 + r.rounds,
        _ => s as u64 + c as u64 + r.rounds - 1,
    }
}

// A round's end, by its stage.
fn finish_round(
    job: &Job,
    hints: &mut [u32],
    palette: &mut [f32],
    least: &mut [f32],
    r: Record,
) -> Record
    requires { Closing (job_in job.now) hints.old palette.old least.old r }
    ensures { state_with [] hints.new palette.new least.new result
        ≡ finish_round (unsampled job.now)
        (state_with [] hints.old palette.old least.old r) }
{
    let from = seeding::seek(job, palette, hints, r);
    match Stage::try_from(r.stage) {
        Ok(Stage::FinalDraws) => run_next::end_final(r),
        _ => run_turns::open_turn(
            job,
            hints,
            palette,
            least,
            turn_after(job.sizes.s, job.sizes.c, r),
            from,
            r,
        ),
    }
}

// Rounds are closed while one is due.
pub fn settle(
    course: &Course,
    order: &[u32],
    hints: &mut [u32],
    palette: &mut [f32],
    least: &mut [f32],
    r: Record,
) -> Record
    requires { Standing (course_in course.now) (state_with order.now hints.old palette.old least.old r) }
    ensures { state_with order.now hints.new palette.new least.new result
        ≡ settle (course_in course.now)
        (state_with order.now hints.old palette.old least.old r) }
{
    let mut at = r;
    while run_next::is_due(at) {
        at = finish_round(&course.job, hints, palette, least, at);
    }
    at
}
