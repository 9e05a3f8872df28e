// The first round of a run, and all that then needs no draw.
ghost use Rattle.std.specs.Prelude.{◌≡◌};
ghost use Rattle.quantizer.specs.Course.{course_in};
ghost use Rattle.run_stages.specs.State.{state_with};
ghost use Rattle.run_stages.specs.Stages.{settle};
ghost use Rattle.run_round.specs.First.{first_round, Beginning};

use quantizer::Course;
use run_stages::Record;

// The first round is opened, and all that needs no draw is done.
pub fn set_out(
    course: &Course,
    order: &[u32],
    hints: &mut [u32],
    palette: &mut [f32],
    least: &mut [f32],
    r: Record,
) -> Record
    requires { Beginning (course_in course.now) (state_with order.now hints.old palette.old least.old r) }
    ensures { state_with order.now hints.new palette.new least.new result
        ≡ settle (course_in course.now)
        (first_round (course_in course.now)
        (state_with order.now hints.old palette.old least.old r)) }
{
    let first = run_turns::open_turn(&course.job, hints, palette, least, 0, 0, r);
    crate::settle(course, order, hints, palette, least, first)
}
