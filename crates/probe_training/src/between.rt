// Forwarders to what training does between draws. Assumes of callers what each callee requires.
ghost use Rattle.std.specs.Prelude.{◌≡◌, length};
ghost use Rattle.job.specs.Job.{sizes_of, job_of};
ghost use Rattle.palette_tile.specs.Tiles.{Shown};
ghost use Rattle.quantizer_needs.specs.Asked.{Growing};

use job::Job;

#[unsafe(no_mangle)]
pub extern "C" fn probe_mse(
    size: usize,
    s: usize,
    c: usize,
    t: usize,
    weight: f32,
    tiles: &[u32],
    colours: &[f32],
    counts: &[u32],
    pal: &[f32],
    n: usize,
    have: usize,
    hints: &mut [u32],
) -> f32
    requires { Shown (job_of (sizes_of size s c t 0 weight) tiles.now colours.now counts.now) pal.now n have × (length hints.old ≡ t) }
{
    let job = Job {
        sizes: job::sizes_of(size, s, c, t, 0, weight),
        tiles,
        colours,
        counts,
    };
    palette_mse_sum::mse(&job, pal, n, have, hints)
}

#[unsafe(no_mangle)]
pub extern "C" fn probe_grow(
    size: usize,
    s: usize,
    c: usize,
    t: usize,
    weight: f32,
    tiles: &[u32],
    colours: &[f32],
    counts: &[u32],
    pal: &mut [f32],
    have: usize,
    hints: &mut [u32],
)
    requires { Growing (job_of (sizes_of size s c t 0 weight) tiles.now colours.now counts.now) pal.old have hints.old }
{
    let job = Job {
        sizes: job::sizes_of(size, s, c, t, 0, weight),
        tiles,
        colours,
        counts,
    };
    quantizer_grow::grow_palette(&job, pal, have, hints)
}

#[unsafe(no_mangle)]
pub extern "C" fn probe_replace_weakest(
    size: usize,
    s: usize,
    c: usize,
    t: usize,
    weight: f32,
    tiles: &[u32],
    colours: &[f32],
    counts: &[u32],
    pal: &mut [f32],
    hints: &mut [u32],
)
    requires { Shown (job_of (sizes_of size s c t 0 weight) tiles.now colours.now counts.now) pal.old s c × (length hints.old ≡ t) }
{
    let job = Job {
        sizes: job::sizes_of(size, s, c, t, 0, weight),
        tiles,
        colours,
        counts,
    };
    quantizer_replace::replace_weakest(&job, pal, hints)
}

#[unsafe(no_mangle)]
pub extern "C" fn probe_refine(
    size: usize,
    s: usize,
    c: usize,
    t: usize,
    weight: f32,
    tiles: &[u32],
    colours: &[f32],
    counts: &[u32],
    pal: &mut [f32],
    hints: &mut [u32],
)
    requires { Shown (job_of (sizes_of size s c t 0 weight) tiles.now colours.now counts.now) pal.old s c × (length hints.old ≡ t) }
{
    let job = Job {
        sizes: job::sizes_of(size, s, c, t, 0, weight),
        tiles,
        colours,
        counts,
    };
    quantizer_refine::refine(&job, pal, hints)
}
