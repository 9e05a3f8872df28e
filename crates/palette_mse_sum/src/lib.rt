// The mean squared error of a palette over a job's tiles, each matched to the subpalette that fits it best.
// It is what the definition in specs/Mse.antt of palette_mse says; the hints then name each tile's winner.
#![tactic(auto)]

ghost use Rattle.std.specs.Prelude.{◌≡◌, ◌+◌, ◌*◌, ◌<◌, length};
ghost use Rattle.job.specs.Job.{job_in, most_tile_size};
ghost use Rattle.palette.specs.Palette.{tile_in};
ghost use Rattle.palette_tile.specs.Tiles.{hint_step, hints_of, Shown};
ghost use Rattle.palette_mse.specs.Mse.{tile_tally, tally_step, mean_error, mse_of, Summed, Turn, Meaned};

use job::Job;
use palette::Tile;
use palette_mse::Tally;

// A tile's distances times counts, added to a sum in f64.
fn tile_tally(s: &[f32], tile: &Tile, w: f32, from: Tally) -> Tally
    requires { Summed s.now (tile_in tile.now) w × (from.count + most_tile_size * length tile.now.counts.now < 18446744073709551616) }
    ensures { result ≡ tile_tally s.now (tile_in tile.now) w from (length tile.now.counts.now) }
{
    let mut total = from.total;
    let mut count = from.count;
    for (k, &pixels) in tile.counts.iter().enumerate() {
        let near = palette_distance::near::nearest_distance(s, tile.colours, k, w);
        total += (near as f64) * (pixels as f64);
        count += pixels as u64;
    }
    Tally { total, count }
}

// Tile i's part in the sum; its hint is written, where it is not empty.
fn tile_step(
    job: &Job,
    pal: &[f32],
    n: usize,
    have: usize,
    hints: &mut [u32],
    i: usize,
    sum: Tally,
) -> Tally
    requires { Turn (job_in job.now) pal.now n have hints.old i sum }
    ensures { (result ≡ tally_step (job_in job.now) pal.now n have i sum)
        × (hints.new ≡ hint_step (job_in job.now) pal.now n have i hints.old) }
{
    if job.is_empty(i) {
        return sum;
    }
    let best = palette_tile::tile_fit(job, pal, n, have, hints, i);
    let winner = best.index;
    let sub = palette::part(pal, job.sizes.c, have, winner);
    tile_tally(sub, &palette_tile::tile(job, i), job.sizes.weight, sum)
}

// The mean in f32 of a sum in f64; 0 where nothing counts.
fn mean(sum: Tally) -> f32
    requires { Meaned sum }
    ensures { result ≡ mean_error sum }
{
    if sum.count == 0 {
        return 0.0;
    }
    ieee_narrow::narrow(sum.total / (sum.count as f64))
}

// Mean squared error of n subpalettes of `have` colours over the tiles that are not empty.
pub fn mse(job: &Job, pal: &[f32], n: usize, have: usize, hints: &mut [u32]) -> f32
    requires { Shown (job_in job.now) pal.now n have × (length hints.old ≡ job.now.sizes.t) }
    ensures { (result ≡ mse_of (job_in job.now) pal.now n have)
        × (hints.new ≡ hints_of (job_in job.now) pal.now n have hints.old job.now.sizes.t) }
{
    let mut sum = Tally {
        total: 0.0,
        count: 0,
    };
    for i in 0..job.sizes.t {
        sum = tile_step(job, pal, n, have, hints, i, sum);
    }
    mean(sum)
}
