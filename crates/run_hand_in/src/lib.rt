// The public call that hands in reduced colours at a stop: they become the palette, and what follows that needs no draw is done.
// The order, the second palette and the samples are not read; they are there to be checked, and named in what is promised.
#![tactic(auto)]

ghost use Rattle.std.specs.Prelude.{◌≡◌};
ghost use Rattle.answer.specs.Refusals.{refusal_of};
ghost use Rattle.answer.specs.Outcome.{outcome};
ghost use Rattle.quantizer.specs.Course.{course_in};
ghost use Rattle.run_stages.specs.State.{state_with};
ghost use Rattle.run_stages.specs.Stages.{hand_in};
ghost use Rattle.run_stages.specs.Calls.{memory, hand_in_call};
ghost use Rattle.run_refine.specs.Refines.{Handed};

use answer::Refusal;
use quantizer::Course;
use run_check::Memory;
use run_stages::{Record, Stage};

// What follows a stop, with the colours handed in as the palette.
fn after_stop(
    course: &Course,
    order: &[u32],
    hints: &mut [u32],
    palette: &mut [f32],
    least: &[f32],
    r: Record,
) -> Record
    requires { Handed (course_in course.now) (state_with order.now hints.old palette.old least.now r) }
    ensures { state_with order.now hints.new palette.new least.now result
        ≡ hand_in (course_in course.now) palette.old
        (state_with order.now hints.old palette.old least.now r) }
{
    match Stage::try_from(r.stage) {
        Ok(Stage::Reducing) => run_refine::final_draws(course.job.sizes.n, r),
        Ok(Stage::Refining) => {
            run_refine::refine_four(&course.job, palette, hints);
            r.placed(Stage::Refined as u64, 0, 0)
        }
        _ => r.placed(Stage::Finished as u64, 0, 0),
    }
}

// Nothing, or the first rule that is broken; then all memory stays as it is.
pub fn hand_in(
    course: &Course,
    order: &[u32],
    hints: &mut [u32],
    palette: &mut [f32],
    least: &[f32],
    words: &mut [u64],
    reduced: &[f32],
) -> Result<(), Refusal>
    ensures { outcome (refusal_of result) (memory order.now hints.new palette.new least.now words.new)
        ≡ hand_in_call (course_in course.now)
        (memory order.now hints.old palette.old least.now words.old) reduced.now }
{
    run_check::check_hand_in(
        course,
        &Memory {
            order,
            hints,
            palette,
            least,
            words,
        },
        reduced,
    )?;
    run_memory::copy(reduced, palette);
    let r = run_record::record_of(words);
    let next = after_stop(course, order, hints, palette, least, r);
    run_memory::write_record(words, next);
    Ok(())
}
