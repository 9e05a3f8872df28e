// The static library for C and Rust hosts: each call of `dunkafeto` under its own name, with its contract. Assumes nothing.
// The answer is one number, a value times 256 and the answer number (`answer::word`). A slice is a pointer and a length in C.
#![tactic(auto)]

ghost use Rattle.std.specs.Prelude.{◌≡◌};
ghost use Rattle.job.specs.Job.{sizes_of, job_of};
ghost use Rattle.quantizer.specs.Course.{course_of};
ghost use Rattle.run_stages.specs.Calls.{memory, start_call, advance_call, hand_in_call, result_call};
ghost use Rattle.assign_tiles.specs.Tiles.{tile_memory};
ghost use Rattle.assign.specs.Assign.{assign_def};
ghost use Rattle.answer.specs.Outcome.{outcome};
ghost use Rattle.answer.specs.Words.{told};
ghost use Rattle.dunkafeto.specs.Told.{told_advance};

// Starts a run, as `dunkafeto::dunkafeto_start`. It makes no draw.
#[unsafe(no_mangle)]
pub extern "C" fn dunkafeto_start(
    size: usize,
    s: usize,
    c: usize,
    t: usize,
    n: usize,
    weight: f32,
    seed: u64,
    tiles: &[u32],
    colours: &[f32],
    counts: &[u32],
    samples: &[u32],
    order: &mut [u32],
    hints: &mut [u32],
    palette: &mut [f32],
    least: &mut [f32],
    words: &mut [u64],
) -> u64
    ensures { outcome result (memory order.new hints.new palette.new least.new words.new)
        ≡ told
        (start_call (course_of (sizes_of size s c t n weight) tiles.now colours.now counts.now samples.now)
        (memory order.old hints.old palette.old least.old words.old) seed) }
{
    dunkafeto::dunkafeto_start(
        size, s, c, t, n, weight, seed, tiles, colours, counts, samples, order, hints, palette,
        least, words,
    )
}

// Makes the draws of a run, at most `allotment`, as `dunkafeto::dunkafeto_advance`.
#[unsafe(no_mangle)]
pub extern "C" fn dunkafeto_advance(
    size: usize,
    s: usize,
    c: usize,
    t: usize,
    n: usize,
    weight: f32,
    tiles: &[u32],
    colours: &[f32],
    counts: &[u32],
    samples: &[u32],
    order: &mut [u32],
    hints: &mut [u32],
    palette: &mut [f32],
    least: &mut [f32],
    words: &mut [u64],
    allotment: u64,
) -> u64
    ensures { outcome result (memory order.new hints.new palette.new least.new words.new)
        ≡ told_advance
        (advance_call (course_of (sizes_of size s c t n weight) tiles.now colours.now counts.now samples.now)
        (memory order.old hints.old palette.old least.old words.old) allotment) }
{
    dunkafeto::dunkafeto_advance(
        size, s, c, t, n, weight, tiles, colours, counts, samples, order, hints, palette, least,
        words, allotment,
    )
}

// Hands in reduced colours at a stop, as `dunkafeto::dunkafeto_hand_in`. It makes no draw.
#[unsafe(no_mangle)]
pub extern "C" fn dunkafeto_hand_in(
    size: usize,
    s: usize,
    c: usize,
    t: usize,
    n: usize,
    weight: f32,
    tiles: &[u32],
    colours: &[f32],
    counts: &[u32],
    samples: &[u32],
    order: &[u32],
    hints: &mut [u32],
    palette: &mut [f32],
    least: &[f32],
    words: &mut [u64],
    reduced: &[f32],
) -> u64
    ensures { outcome result (memory order.now hints.new palette.new least.now words.new)
        ≡ told
        (hand_in_call (course_of (sizes_of size s c t n weight) tiles.now colours.now counts.now samples.now)
        (memory order.now hints.old palette.old least.now words.old)
        reduced.now) }
{
    dunkafeto::dunkafeto_hand_in(
        size, s, c, t, n, weight, tiles, colours, counts, samples, order, hints, palette, least,
        words, reduced,
    )
}

// Copies the colours of a finished run to `out`, as `dunkafeto::dunkafeto_result`.
#[unsafe(no_mangle)]
pub extern "C" fn dunkafeto_result(
    size: usize,
    s: usize,
    c: usize,
    t: usize,
    n: usize,
    weight: f32,
    tiles: &[u32],
    colours: &[f32],
    counts: &[u32],
    samples: &[u32],
    order: &[u32],
    hints: &[u32],
    palette: &[f32],
    least: &[f32],
    words: &[u64],
    out: &mut [f32],
) -> u64
    ensures { outcome result out.new
        ≡ told
        (result_call (course_of (sizes_of size s c t n weight) tiles.now colours.now counts.now samples.now)
        (memory order.now hints.now palette.now least.now words.now) out.old) }
{
    dunkafeto::dunkafeto_result(
        size, s, c, t, n, weight, tiles, colours, counts, samples, order, hints, palette, least,
        words, out,
    )
}

// For each tile the subpalette that fits it best, as `dunkafeto::dunkafeto_assign`. It belongs to no run.
#[unsafe(no_mangle)]
pub extern "C" fn dunkafeto_assign(
    size: usize,
    s: usize,
    c: usize,
    t: usize,
    weight: f32,
    tiles: &[u32],
    colours: &[f32],
    counts: &[u32],
    palette: &[f32],
    hints: &mut [u32],
    out: &mut [u32],
) -> u64
    ensures { outcome result (tile_memory hints.new out.new)
        ≡ told
        (assign_def (job_of (sizes_of size s c t 0 weight) tiles.now colours.now counts.now) palette.now
        (tile_memory hints.old out.old)) }
{
    dunkafeto::dunkafeto_assign(
        size, s, c, t, weight, tiles, colours, counts, palette, hints, out,
    )
}
