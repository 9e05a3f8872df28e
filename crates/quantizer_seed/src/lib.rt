// Seeding: the mean of the samples becomes the first colour, as the definitions in quantizer's specs/Seeding.antt say. Assumes nothing.
#![tactic(auto)]

ghost use Rattle.std.specs.Prelude.{◌≡◌, ◌/◌, length};
ghost use Rattle.color.specs.Color.{mean_of};
ghost use Rattle.quantizer.specs.Course.{course_in, sample_colour};
ghost use Rattle.quantizer.specs.Seeding.{seeded};
ghost use Rattle.quantizer_seed.specs.Seeds.{Averaging, Seeding};

use color::Oklab;
use quantizer::Course;

// Component-wise mean of the samples' colours, summed in order.
pub fn mean_oklab(course: &Course) -> Oklab
    requires { Averaging course.now.job.tiles.now course.now.job.colours.now course.now.samples.now }
    ensures { result ≡ mean_of (sample_colour (course_in course.now)) (length course.now.samples.now / 2) }
{
    let n = course.samples.len() / 2;
    let mut sum = Oklab {
        l: 0.0,
        a: 0.0,
        b: 0.0,
    };
    for i in 0..n {
        let q = quantizer_sample::sample_colour(course, i);
        sum = color::plus(sum, q);
    }
    color::over(sum, n)
}

// The first colour of the palette becomes that mean.
pub fn seed(course: &Course, pal: &mut [f32])
    requires { Seeding (course_in course.now) pal.old }
    ensures { pal.new ≡ seeded (course_in course.now) pal.old }
{
    let mean = mean_oklab(course);
    color::put(pal, 0, mean);
}
