// One draw: the next sample of the order nudges a colour.
// It is what the definitions in cycle's specs/Cycle.antt and quantizer's specs/Drawing.antt say.
#![tactic(auto)]

ghost use Rattle.std.specs.Prelude.{◌≡◌};
ghost use Rattle.prng.specs.Shuffle.{deck};
ghost use Rattle.cycle.specs.Cycle.{cycle, draw_one};
ghost use Rattle.quantizer.specs.Course.{course_in};
ghost use Rattle.quantizer_nudge.specs.Nudges.{moved_by, hints_by};
ghost use Rattle.quantizer_draw.specs.Draws.{Going};

use cycle::SampleCycle;
use quantizer::Course;

// The next sample of the order is drawn and nudges a colour. The order is shuffled first where a round is over.
pub fn draw(
    course: &Course,
    at: &mut SampleCycle,
    order: &mut [u32],
    pal: &mut [f32],
    subs: usize,
    have: usize,
    hints: &mut [u32],
    alpha: f32,
)
    requires { Going (course_in course.now) (cycle (deck order.old at.old.prng.state) at.old.made) pal.old subs have hints.old }
    ensures { (cycle (deck order.new at.new.prng.state) at.new.made ≡ (draw_one (cycle (deck order.old at.old.prng.state) at.old.made)).next)
        × ((pal.new ≡ moved_by (course_in course.now) pal.old subs have
        (draw_one (cycle (deck order.old at.old.prng.state) at.old.made)).sample alpha)
        × (hints.new ≡ hints_by (course_in course.now) pal.old subs have
        (draw_one (cycle (deck order.old at.old.prng.state) at.old.made)).sample hints.old)) }
{
    let sample = at.next(order) as usize;
    quantizer_move::nudge(course, pal, subs, have, hints, sample, alpha);
}
