// The lines that `fit` prints for a job and a palette: the sizes, each tile's fit, each subpalette's load and the empty tiles.
// Assumes nothing.
#![tactic(auto)]

ghost use Rattle.std.specs.Prelude.{◌≡◌, ◌+◌, ◌<◌, ℕ, ◌*◌, ◌≤◌, not, length, get_or, set};
ghost use Rattle.fit_lines.specs.Lines.{Stored};
ghost use Rattle.lists.specs.Count.{hit};
ghost use Rattle.job.specs.Job.{job_in, is_empty, most_tiles};
ghost use Rattle.palette_tile.specs.Tiles.{Shown, Paired};
ghost use Rattle.fit_tiles.specs.Text.{found_of, tile_lines, load_lines, load_of, blanks_of, fit_text, most_text};

use fit_lines::Found;
use job::Job;

// The load of subpalette `sub` with its tile i: an empty one adds nothing.
fn count_tile(job: &Job, i: usize, sub: u32, loads: &mut [u32])
    requires { (2 * i + 1 < length job.now.tiles.now) × (sub < length loads.old) × (get_or loads.old sub 0 + 1 < 4294967296) }
    ensures { loads.new
        ≡ set loads.old sub (get_or loads.old sub 0 + hit (not (is_empty (job_in job.now) i))) }
{
    let k = sub as usize;
    let one = if job.is_empty(i) { 0 } else { 1 };
    loads[k] += one;
}

// How many tiles are empty.
fn count_blanks(job: &Job) -> u32
    requires { (2 * job.now.sizes.t ≤ length job.now.tiles.now) × (job.now.sizes.t ≤ most_tiles) }
    ensures { result ≡ blanks_of job.now.tiles.now job.now.sizes.t }
{
    let mut n = 0;
    for i in 0..job.sizes.t {
        n += if job.is_empty(i) { 1 } else { 0 };
    }
    n
}

// Tile i: an empty one has subpalette 0, distance 0 and next 0.
fn tile_found(job: &Job, palette: &[f32], hints: &mut [u32], i: usize) -> Found
    requires { Paired (job_in job.now) palette.now job.now.sizes.s job.now.sizes.c hints.old i }
    ensures { result ≡ found_of (job_in job.now) palette.now i }
{
    if job.is_empty(i) {
        return Found {
            sub: 0,
            dist: 0,
            next: 0,
        };
    }
    let best = palette_tile::tile_two(job, palette, job.sizes.s, job.sizes.c, hints, i);
    let sub = best.index as u32;
    let dist = f32::to_bits(best.dist);
    let next = best.next as u32;
    Found { sub, dist, next }
}

// A line for each tile, and how many tiles each subpalette has, the empty ones left out.
fn put_tiles(
    job: &Job,
    palette: &[f32],
    hints: &mut [u32],
    loads: &mut [u32],
    out: &mut [u8],
    at: usize,
) -> usize
    requires { Shown (job_in job.now) palette.now job.now.sizes.s job.now.sizes.c × (length hints.old ≡ job.now.sizes.t)
        × (job.now.sizes.s ≤ length loads.old) × ((k : ℕ) → get_or loads.old k 0 ≡ 0) × (at + 43 * job.now.sizes.t ≤ length out.old) }
    ensures { Stored out.old out.new at result (tile_lines (job_in job.now) palette.now job.now.sizes.t)
        × ((k : ℕ) → get_or loads.new k 0 ≡ load_of (job_in job.now) palette.now k job.now.sizes.t) }
{
    let mut q = at;
    for i in 0..job.sizes.t {
        let found = tile_found(job, palette, hints, i);
        q = fit_lines::put_tile(out, q, i as u32, found);
        count_tile(job, i, found.sub, loads);
    }
    q
}

// A line for each subpalette.
fn put_loads(s: usize, loads: &[u32], out: &mut [u8], at: usize) -> usize
    requires { (s ≤ length loads.now) × (s ≤ 16) × (at + 15 * s ≤ length out.old) }
    ensures { Stored out.old out.new at result (load_lines (λ k. get_or loads.now k 0) s) }
{
    let mut q = at;
    for k in 0..s {
        q = fit_lines::put_load(out, q, k as u32, loads[k]);
    }
    q
}

// All lines of a job and a palette that passed their checks.
pub fn put_fit(job: &Job, palette: &[f32], hints: &mut [u32], out: &mut [u8]) -> usize
    requires { Shown (job_in job.now) palette.now job.now.sizes.s job.now.sizes.c × (length hints.old ≡ job.now.sizes.t) × (most_text ≤ length out.old) }
    ensures { Stored out.old out.new 0 result (fit_text (job_in job.now) palette.now) }
{
    let mut loads = [0u32; 16];
    let a = fit_lines::put_head(out, 0, job.sizes.t as u32, job.sizes.s as u32);
    let b = put_tiles(job, palette, hints, &mut loads, out, a);
    let c = put_loads(job.sizes.s, &loads, out, b);
    fit_lines::put_blank(out, c, count_blanks(job))
}
