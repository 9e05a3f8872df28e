// A tile of a job: the subpalette that fits it best among those present, and the best two; its hint then names the best.
// Each function gives what its definition in specs/Tiles.antt says; no definition reads a hint.
#![tactic(auto)]

ghost use Rattle.std.specs.Prelude.{◌≡◌, length, set};
ghost use Rattle.job.specs.Job.{job_in, Inside};
ghost use Rattle.palette.specs.Palette.{palette_in, tile_in};
ghost use Rattle.palette_tile.specs.Tiles.{tile_at, present_in, fit_at, two_at, Fitted, Paired};

use job::Job;
use palette::{Palette, Tile};
use stats::{Near, Two};

// Tile i: its colours and counts.
pub fn tile<'a>(job: &Job<'a>, i: usize) -> Tile<'a>
    requires { Inside 3 job.now.tiles.now i (length job.now.colours.now) × Inside 1 job.now.tiles.now i (length job.now.counts.now) }
    ensures { tile_in result ≡ tile_at (job_in job.now) i }
{
    Tile {
        colours: job.tile_part(i),
        counts: job.counts_part(i),
    }
}

// The n subpalettes of `have` colours that are present.
fn palette_of<'a>(job: &Job, pal: &'a [f32], n: usize, have: usize) -> Palette<'a>
    ensures { palette_in result ≡ present_in (job_in job.now) pal.now n have }
{
    Palette {
        flat: pal,
        stride: job.sizes.c,
        have,
        subs: n,
    }
}

// Index and distance of the subpalette that fits tile i best, which is not empty, among n subpalettes of `have` colours.
pub fn tile_fit(job: &Job, pal: &[f32], n: usize, have: usize, hints: &mut [u32], i: usize) -> Near
    requires { Fitted (job_in job.now) pal.now n have hints.old i }
    ensures { (result ≡ fit_at (job_in job.now) pal.now n have i) × (hints.new ≡ set hints.old i result.index) }
{
    palette_hint::best_fit(
        &palette_of(job, pal, n, have),
        &tile(job, i),
        job.sizes.weight,
        hints,
        i,
    )
}

// The best two for tile i, which may be empty.
pub fn tile_two(job: &Job, pal: &[f32], n: usize, have: usize, hints: &mut [u32], i: usize) -> Two
    requires { Paired (job_in job.now) pal.now n have hints.old i }
    ensures { (result ≡ two_at (job_in job.now) pal.now n have i) × (hints.new ≡ set hints.old i result.index) }
{
    palette_hint::best_two(
        &palette_of(job, pal, n, have),
        &tile(job, i),
        job.sizes.weight,
        hints,
        i,
    )
}
