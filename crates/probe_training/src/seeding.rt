// Forwarders to the mean and the first colour of seeding, and to the choice of what is split next. Assumes of callers what each callee requires.
ghost use Rattle.std.specs.Prelude.{◌≡◌, length};
ghost use Rattle.job.specs.Job.{sizes_of, job_of};
ghost use Rattle.palette_tile.specs.Tiles.{Shown};
ghost use Rattle.quantizer.specs.Course.{course_of};
ghost use Rattle.quantizer_seed.specs.Seeds.{Averaging, Seeding};

use job::Job;
use quantizer::Course;

#[unsafe(no_mangle)]
pub extern "C" fn probe_mean(
    tiles: &[u32],
    colours: &[f32],
    samples: &[u32],
    l: &mut f32,
    a: &mut f32,
    b: &mut f32,
)
    requires { Averaging tiles.now colours.now samples.now }
{
    // Neither the sizes of a job nor its counts make a difference to the mean.
    let job = Job {
        sizes: job::sizes_of(0, 0, 0, 0, 0, 0.0),
        tiles,
        colours,
        counts: &[],
    };
    let mean = quantizer_seed::mean_oklab(&Course { job, samples });
    *l = mean.l;
    *a = mean.a;
    *b = mean.b;
}

#[unsafe(no_mangle)]
pub extern "C" fn probe_seed(
    size: usize,
    s: usize,
    c: usize,
    t: usize,
    n: usize,
    weight: f32,
    tiles: &[u32],
    colours: &[f32],
    counts: &[u32],
    samples: &[u32],
    pal: &mut [f32],
)
    requires { Seeding (course_of (sizes_of size s c t n weight) tiles.now colours.now counts.now samples.now) pal.old }
{
    let job = Job {
        sizes: job::sizes_of(size, s, c, t, n, weight),
        tiles,
        colours,
        counts,
    };
    quantizer_seed::seed(&Course { job, samples }, pal)
}

#[unsafe(no_mangle)]
pub extern "C" fn probe_worst(
    size: usize,
    s: usize,
    c: usize,
    t: usize,
    weight: f32,
    tiles: &[u32],
    colours: &[f32],
    counts: &[u32],
    pal: &[f32],
    subs: usize,
    hints: &mut [u32],
) -> usize
    requires { Shown (job_of (sizes_of size s c t 0 weight) tiles.now colours.now counts.now) pal.now subs 1 × (length hints.old ≡ t) }
{
    let job = Job {
        sizes: job::sizes_of(size, s, c, t, 0, weight),
        tiles,
        colours,
        counts,
    };
    quantizer_worst::worst(&job, pal, subs, hints)
}
