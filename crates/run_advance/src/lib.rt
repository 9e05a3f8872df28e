// The public call that makes a run's draws: at most an allotment, none past a stop.
#![tactic(auto)]

ghost use Rattle.std.specs.Prelude.{◌≡◌};
ghost use Rattle.answer.specs.Outcome.{outcome};
ghost use Rattle.quantizer.specs.Course.{course_in};
ghost use Rattle.run_stages.specs.Calls.{memory, advanced_as, advance_call};

use answer::Refusal;
use quantizer::Course;
use run_check::Memory;

// A refusal makes no draw and writes nothing.
pub fn advance(
    course: &Course,
    order: &mut [u32],
    hints: &mut [u32],
    palette: &mut [f32],
    least: &mut [f32],
    words: &mut [u64],
    allotment: u64,
) -> Result<u64, Refusal>
    ensures { outcome (advanced_as result) (memory order.new hints.new palette.new least.new words.new)
        ≡ advance_call (course_in course.now)
        (memory order.old hints.old palette.old least.old words.old) allotment }
{
    run_check::check_advance(
        course,
        &Memory {
            order,
            hints,
            palette,
            least,
            words,
        },
    )?;
    let draws = run_steps::advance_work(course, order, hints, palette, least, words, allotment);
    Ok(draws)
}
