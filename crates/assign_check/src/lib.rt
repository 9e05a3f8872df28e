// How the call `assign` is refused. Assumes nothing.
#![tactic(auto)]

ghost use Rattle.std.specs.Prelude.{◌≡◌};
ghost use Rattle.answer.specs.Refusals.{refusal_of};
ghost use Rattle.job.specs.Job.{job_in};
ghost use Rattle.assign_check.specs.Answer.{room_for, answer_for};

use answer::Refusal;
use job::Job;

// Whether both lent slices have a place for each tile.
#[tactic(auto, unfolding(crate::specs::Answer::room_for))]
fn has_room(t: usize, hints: usize, out: usize) -> bool
    ensures { result ≡ room_for t hints out }
{
    hints == t && out == t
}

// The first rule that the call breaks, given the lengths of both lent slices.
pub fn check_assign(job: &Job, palette: &[f32], hints: usize, out: usize) -> Result<(), Refusal>
    ensures { refusal_of result ≡ answer_for (job_in job.now) palette.now hints out }
{
    let room = has_room(job.sizes.t, hints, out);
    job_check::check_job(job, palette, room)
}
