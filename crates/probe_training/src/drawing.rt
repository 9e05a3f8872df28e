// A forwarder to one draw. Assumes of callers what the callee requires.
ghost use Rattle.prng.specs.Shuffle.{deck};
ghost use Rattle.cycle.specs.Cycle.{cycle};
ghost use Rattle.job.specs.Job.{sizes_of};
ghost use Rattle.quantizer.specs.Course.{course_of};
ghost use Rattle.quantizer_draw.specs.Draws.{Going};

use cycle::SampleCycle;
use job::Job;
use prng::Prng;
use quantizer::Course;

// Gives the generator's state after the draw.
#[unsafe(no_mangle)]
pub extern "C" fn probe_draw(
    size: usize,
    s: usize,
    c: usize,
    t: usize,
    n: usize,
    weight: f32,
    tiles: &[u32],
    colours: &[f32],
    counts: &[u32],
    samples: &[u32],
    state: u64,
    made: u64,
    order: &mut [u32],
    pal: &mut [f32],
    subs: usize,
    have: usize,
    hints: &mut [u32],
    alpha: f32,
) -> u64
    requires { Going (course_of (sizes_of size s c t n weight) tiles.now colours.now counts.now samples.now) (cycle (deck order.old state) made) pal.old subs have hints.old }
{
    let prng = Prng { state };
    let mut at = SampleCycle { prng, made };
    let job = Job {
        sizes: job::sizes_of(size, s, c, t, n, weight),
        tiles,
        colours,
        counts,
    };
    quantizer_draw::draw(
        &Course { job, samples },
        &mut at,
        order,
        pal,
        subs,
        have,
        hints,
        alpha,
    );
    at.prng.state
}
