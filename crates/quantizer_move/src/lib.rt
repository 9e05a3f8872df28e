// Sample i of a course nudges a colour: the nearest one, in the subpalette that fits the sample's tile best, moves towards it; the tile's hint names that subpalette.
// It is what the definitions in quantizer's specs/Drawing.antt say.
#![tactic(auto)]

ghost use Rattle.std.specs.Prelude.{◌≡◌};
ghost use Rattle.quantizer.specs.Course.{course_in};
ghost use Rattle.quantizer_nudge.specs.Nudges.{moved_by, hints_by, Drawing};

use quantizer::Course;

// Sample i nudges a colour by alpha; `subs` subpalettes of `have` colours are present.
pub fn nudge(
    course: &Course,
    pal: &mut [f32],
    subs: usize,
    have: usize,
    hints: &mut [u32],
    i: usize,
    alpha: f32,
)
    requires { Drawing (course_in course.now) pal.old subs have hints.old i }
    ensures { (pal.new ≡ moved_by (course_in course.now) pal.old subs have i alpha)
        × (hints.new ≡ hints_by (course_in course.now) pal.old subs have i hints.old) }
{
    let tile = quantizer_sample::sample_tile(course, i);
    let q = quantizer_sample::sample_colour(course, i);
    let best = palette_tile::tile_fit(&course.job, pal, subs, have, hints, tile);
    let winner = best.index;
    let near = palette::nearest(
        palette::part(pal, course.job.sizes.c, have, winner),
        q,
        course.job.sizes.weight,
    );
    let k = near.index;
    palette_edit::nudge(pal, winner * course.job.sizes.c + k, q, alpha);
}
