// Seeding: the subpalette of greatest summed distance is to be split next, as the definitions in quantizer's specs/Seeding.antt say.
// Duplicating is palette_edit's. Assumes nothing.
#![tactic(auto)]

ghost use Rattle.std.specs.Prelude.{◌≡◌, length};
ghost use Rattle.job.specs.Job.{job_in};
ghost use Rattle.palette_tile.specs.Tiles.{hint_step, hints_of, Shown};
ghost use Rattle.quantizer.specs.Seeding.{distance_step, worst_of};
ghost use Rattle.quantizer_worst.specs.Turns.{Turned};

use job::Job;

// Tile i's distance goes to the sum of the subpalette that fits it best, where it is not empty; its hint is written.
fn distance_step(
    job: &Job,
    pal: &[f32],
    subs: usize,
    hints: &mut [u32],
    i: usize,
    distances: &mut [f32],
)
    requires { Turned (job_in job.now) pal.now subs hints.old i distances.old }
    ensures { (distances.new ≡ distance_step (job_in job.now) pal.now subs i distances.old)
        × (hints.new ≡ hint_step (job_in job.now) pal.now subs 1 i hints.old) }
{
    if job.is_empty(i) {
        return;
    }
    let best = palette_tile::tile_fit(job, pal, subs, 1, hints, i);
    let winner = best.index;
    distances[winner] += best.dist;
}

// Of the `subs` subpalettes present, of one colour each, the last of greatest summed distance.
pub fn worst(job: &Job, pal: &[f32], subs: usize, hints: &mut [u32]) -> usize
    requires { Shown (job_in job.now) pal.now subs 1 × (length hints.old ≡ job.now.sizes.t) }
    ensures { (result ≡ worst_of (job_in job.now) pal.now subs)
        × (hints.new ≡ hints_of (job_in job.now) pal.now subs 1 hints.old job.now.sizes.t) }
{
    let mut distances = [0.0f32; 16];
    for i in 0..job.sizes.t {
        distance_step(job, pal, subs, hints, i, &mut distances);
    }
    stats_extremes::argmax(&distances[0..subs])
}
