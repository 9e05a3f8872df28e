// What a start writes before its first round: both palettes nought but for the samples' mean, and the first order.
#![tactic(auto)]

ghost use Rattle.std.specs.Prelude.{◌≡◌, [], ◌*◌, ◌^◌, ◌≤◌, length};
ghost use Rattle.quantizer.specs.Course.{course_in};
ghost use Rattle.quantizer.specs.Sums.{zeros};
ghost use Rattle.quantizer.specs.Seeding.{seeded};
ghost use Rattle.run_stages.specs.State.{state_with};
ghost use Rattle.run_stages.specs.Record.{sizes_word};
ghost use Rattle.run_record.specs.Sized.{plain, Sized};
ghost use Rattle.run_blank.specs.Blanks.{dealt, Blanking};

use cycle::SampleCycle;
use job::Sizes;
use quantizer::Course;
use run_stages::{Record, Stage};

// Both palettes are zeroed, and the first colour becomes the mean of the samples.
pub fn blank(course: &Course, palette: &mut [f32], least: &mut [f32])
    requires { Blanking (course_in course.now) palette.old least.old }
    ensures { (palette.new ≡ seeded (course_in course.now)
        (zeros (3 * (course.now.job.sizes.s * course.now.job.sizes.c))))
        × (least.new ≡ zeros (3 * (course.now.job.sizes.s * course.now.job.sizes.c))) }
{
    run_memory::zero(least);
    run_memory::zero(palette);
    quantizer_seed::seed(course, palette);
}

// The first order is written; the record stands at the very beginning, with the job's sizes.
pub fn deal(z: Sizes, order: &mut [u32], seed: u64) -> Record
    requires { Sized z × (length order.old ≤ 2 ^ 32) }
    ensures { state_with order.new [] [] [] result ≡ dealt (length order.old) seed (sizes_word (plain z)) }
{
    let sizes = run_record::sizes_word(z);
    let first = SampleCycle::new(order, seed);
    Record {
        generator: first.prng.state,
        stage: Stage::Seeding as u64,
        rounds: 0,
        left: 0,
        made: 0,
        error: 0,
        sizes,
    }
}
