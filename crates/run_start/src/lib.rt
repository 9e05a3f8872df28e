// The public call that starts a run: both palettes nought but for the samples' mean, the first order, and all that needs no draw.
#![tactic(auto)]

ghost use Rattle.std.specs.Prelude.{◌≡◌};
ghost use Rattle.answer.specs.Refusals.{refusal_of};
ghost use Rattle.answer.specs.Outcome.{outcome};
ghost use Rattle.quantizer.specs.Course.{course_in};
ghost use Rattle.run_stages.specs.Calls.{memory, start_call};

use answer::Refusal;
use quantizer::Course;
use run_check::Memory;

// Nothing, or the first rule that is broken; then all memory stays as it is.
pub fn start(
    course: &Course,
    seed: u64,
    order: &mut [u32],
    hints: &mut [u32],
    palette: &mut [f32],
    least: &mut [f32],
    words: &mut [u64],
) -> Result<(), Refusal>
    ensures { outcome (refusal_of result) (memory order.new hints.new palette.new least.new words.new)
        ≡ start_call (course_in course.now)
        (memory order.old hints.old palette.old least.old words.old) seed }
{
    run_check::check_start(
        course,
        &Memory {
            order,
            hints,
            palette,
            least,
            words,
        },
    )?;
    run_blank::blank(course, palette, least);
    let r = run_blank::deal(course.job.sizes, order, seed);
    let next = run_round::first::set_out(course, order, hints, palette, least, r);
    run_memory::write_record(words, next);
    Ok(())
}
