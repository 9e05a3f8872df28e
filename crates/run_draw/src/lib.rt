// One draw on the lent memory: the record's generator and draws made drive the cycle of samples, its stage and rounds say what is present.
#![tactic(auto)]

ghost use Rattle.std.specs.Prelude.{◌≡◌, []};
ghost use Rattle.quantizer.specs.Course.{course_in};
ghost use Rattle.run_stages.specs.State.{state_with};
ghost use Rattle.run_stages.specs.Stages.{draw};
ghost use Rattle.run_draw.specs.Drawable.{Drawable};

use quantizer::Course;
use run_stages::Record;

// The record after one draw more of a round that has one left.
pub fn draw(
    course: &Course,
    order: &mut [u32],
    hints: &mut [u32],
    palette: &mut [f32],
    r: Record,
) -> Record
    requires { Drawable (course_in course.now) (state_with order.old hints.old palette.old [] r) }
    ensures { state_with order.new hints.new palette.new [] result
        ≡ draw (course_in course.now)
        (state_with order.old hints.old palette.old [] r) }
{
    let subs = run_cycle::subs_of(course.job.sizes.s, r);
    let have = run_cycle::have_of(course.job.sizes.c, r);
    let alpha = run_cycle::alpha_of(r);
    let mut at = run_cycle::cycle_of(r);
    quantizer_draw::draw(course, &mut at, order, palette, subs, have, hints, alpha);
    run_cycle::count_draw(r, at)
}
