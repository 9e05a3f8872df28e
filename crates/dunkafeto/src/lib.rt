// The calls as C and Rust hosts have them: forwarders only, each with the contract of what it forwards to. Assumes nothing.
// The answer is one number, a value times 256 and the answer number (`answer::word`). `dunkafeto_c` exports them.
#![tactic(auto)]

ghost use Rattle.std.specs.Prelude.{◌≡◌, ◌≤◌};
ghost use Rattle.job.specs.Job.{sizes_of, job_of, job_in};
ghost use Rattle.quantizer.specs.Course.{course_of, course_in};
ghost use Rattle.run_stages.specs.Calls.{memory, start_call, advance_call, hand_in_call, result_call};
ghost use Rattle.assign_tiles.specs.Tiles.{tile_memory};
ghost use Rattle.assign.specs.Assign.{assign_def};
ghost use Rattle.answer.specs.Refusals.{refusal_of};
ghost use Rattle.answer.specs.Outcome.{outcome};
ghost use Rattle.answer.specs.Words.{word, told};
ghost use Rattle.dunkafeto.specs.Told.{told_advance};

use answer::Refusal;
use job::Job;
use quantizer::Course;
use run_check::Memory;

// A host's numbers and slices as a job.
fn lent_job<'a>(
    size: usize,
    s: usize,
    c: usize,
    t: usize,
    n: usize,
    weight: f32,
    tiles: &'a [u32],
    colours: &'a [f32],
    counts: &'a [u32],
) -> Job<'a>
    ensures lent { job_in result ≡ job_of (sizes_of size s c t n weight) tiles.now colours.now counts.now }
    ensures many { result.sizes.n ≡ n }
{
    Job {
        sizes: job::sizes_of(size, s, c, t, n, weight),
        tiles,
        colours,
        counts,
    }
}

// And as a course.
fn lent_course<'a>(
    size: usize,
    s: usize,
    c: usize,
    t: usize,
    n: usize,
    weight: f32,
    tiles: &'a [u32],
    colours: &'a [f32],
    counts: &'a [u32],
    samples: &'a [u32],
) -> Course<'a>
    ensures { course_in result ≡ course_of (sizes_of size s c t n weight) tiles.now colours.now counts.now samples.now }
{
    Course {
        job: lent_job(size, s, c, t, n, weight, tiles, colours, counts),
        samples,
    }
}

// The word of a call that has no value.
fn word_of_call(answer: Result<(), Refusal>) -> u64
    requires { (refusal_of answer).index ≤ 0xffff_ffff }
    ensures { result ≡ word (refusal_of answer) 0 }
{
    answer::word(answer.map(|_| 0))
}

// Starts a run, as `run_start::start`. It makes no draw.
pub fn dunkafeto_start(
    size: usize,
    s: usize,
    c: usize,
    t: usize,
    n: usize,
    weight: f32,
    seed: u64,
    tiles: &[u32],
    colours: &[f32],
    counts: &[u32],
    samples: &[u32],
    order: &mut [u32],
    hints: &mut [u32],
    palette: &mut [f32],
    least: &mut [f32],
    words: &mut [u64],
) -> u64
    ensures { outcome result (memory order.new hints.new palette.new least.new words.new)
        ≡ told
        (start_call (course_of (sizes_of size s c t n weight) tiles.now colours.now counts.now samples.now)
        (memory order.old hints.old palette.old least.old words.old) seed) }
{
    let course = lent_course(size, s, c, t, n, weight, tiles, colours, counts, samples);
    let answer = run_start::start(&course, seed, order, hints, palette, least, words);
    word_of_call(answer)
}

// Makes the draws of a run, at most `allotment`, as `run_advance::advance`.
pub fn dunkafeto_advance(
    size: usize,
    s: usize,
    c: usize,
    t: usize,
    n: usize,
    weight: f32,
    tiles: &[u32],
    colours: &[f32],
    counts: &[u32],
    samples: &[u32],
    order: &mut [u32],
    hints: &mut [u32],
    palette: &mut [f32],
    least: &mut [f32],
    words: &mut [u64],
    allotment: u64,
) -> u64
    ensures { outcome result (memory order.new hints.new palette.new least.new words.new)
        ≡ told_advance
        (advance_call (course_of (sizes_of size s c t n weight) tiles.now colours.now counts.now samples.now)
        (memory order.old hints.old palette.old least.old words.old) allotment) }
{
    let course = lent_course(size, s, c, t, n, weight, tiles, colours, counts, samples);
    let answer = run_advance::advance(&course, order, hints, palette, least, words, allotment);
    answer::word(answer)
}

// Hands in reduced colours at a stop, as `run_hand_in::hand_in`. It makes no draw.
pub fn dunkafeto_hand_in(
    size: usize,
    s: usize,
    c: usize,
    t: usize,
    n: usize,
    weight: f32,
    tiles: &[u32],
    colours: &[f32],
    counts: &[u32],
    samples: &[u32],
    order: &[u32],
    hints: &mut [u32],
    palette: &mut [f32],
    least: &[f32],
    words: &mut [u64],
    reduced: &[f32],
) -> u64
    ensures { outcome result (memory order.now hints.new palette.new least.now words.new)
        ≡ told
        (hand_in_call (course_of (sizes_of size s c t n weight) tiles.now colours.now counts.now samples.now)
        (memory order.now hints.old palette.old least.now words.old)
        reduced.now) }
{
    let course = lent_course(size, s, c, t, n, weight, tiles, colours, counts, samples);
    let answer = run_hand_in::hand_in(&course, order, hints, palette, least, words, reduced);
    word_of_call(answer)
}

// Copies the colours of a finished run to `out`, as `run_result::result`.
pub fn dunkafeto_result(
    size: usize,
    s: usize,
    c: usize,
    t: usize,
    n: usize,
    weight: f32,
    tiles: &[u32],
    colours: &[f32],
    counts: &[u32],
    samples: &[u32],
    order: &[u32],
    hints: &[u32],
    palette: &[f32],
    least: &[f32],
    words: &[u64],
    out: &mut [f32],
) -> u64
    ensures { outcome result out.new
        ≡ told
        (result_call (course_of (sizes_of size s c t n weight) tiles.now colours.now counts.now samples.now)
        (memory order.now hints.now palette.now least.now words.now) out.old) }
{
    let course = lent_course(size, s, c, t, n, weight, tiles, colours, counts, samples);
    let held = Memory {
        order,
        hints,
        palette,
        least,
        words,
    };
    let answer = run_result::result(&course, &held, out);
    word_of_call(answer)
}

// For each tile the subpalette that fits it best, as `assign::assign`. It belongs to no run.
pub fn dunkafeto_assign(
    size: usize,
    s: usize,
    c: usize,
    t: usize,
    weight: f32,
    tiles: &[u32],
    colours: &[f32],
    counts: &[u32],
    palette: &[f32],
    hints: &mut [u32],
    out: &mut [u32],
) -> u64
    ensures { outcome result (tile_memory hints.new out.new)
        ≡ told
        (assign_def (job_of (sizes_of size s c t 0 weight) tiles.now colours.now counts.now) palette.now
        (tile_memory hints.old out.old)) }
{
    let job = lent_job(size, s, c, t, 0, weight, tiles, colours, counts);
    let answer = assign::assign(&job, palette, hints, out);
    word_of_call(answer)
}
