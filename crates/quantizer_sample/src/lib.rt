// The samples of a course: the tile that each names, its place in that tile, and the colour there.
#![tactic(auto)]

ghost use Rattle.std.specs.Prelude.{◌≡◌, ◌+◌, ◌*◌, ◌<◌, length};
ghost use Rattle.quantizer.specs.Course.{course_in, sample_tile, sample_place, sample_colour};
ghost use Rattle.quantizer_sample.specs.Samples.{Told};

use color::Oklab;
use quantizer::Course;

pub fn sample_tile(course: &Course, i: usize) -> usize
    requires { 2 * i + 1 < length course.now.samples.now }
    ensures { result ≡ sample_tile (course_in course.now) i }
{
    job::wide(course.samples[2 * i])
}

pub fn sample_place(course: &Course, i: usize) -> usize
    requires { 2 * i + 1 < length course.now.samples.now }
    ensures { result ≡ sample_place (course_in course.now) i }
{
    job::wide(course.samples[2 * i + 1])
}

pub fn sample_colour(course: &Course, i: usize) -> Oklab
    requires { Told course.now.job.tiles.now course.now.job.colours.now course.now.samples.now i }
    ensures { result ≡ sample_colour (course_in course.now) i }
{
    let tile = course.job.tile_part(sample_tile(course, i));
    color::colour(tile, sample_place(course, i))
}
