// The sums and the counts that one pass of refinement takes its means from: each tile colour goes to the nearest colour of the subpalette
// that fits its tile best. They are what the definitions in quantizer's specs/Refining.antt say; the hints then name each tile's winner.
#![tactic(auto)]

ghost use Rattle.std.specs.Prelude.{◌≡◌, length};
ghost use Rattle.job.specs.Job.{job_in};
ghost use Rattle.palette_tile.specs.Tiles.{winner, hint_step, hints_of, Shown};
ghost use Rattle.quantizer.specs.Refining.{nothing, gather_step, gather_of};
ghost use Rattle.quantizer_gather.specs.Turns.{Turned};

use job::Job;
use quantizer::Gather;

// Tile i's part; its hint is written, where it is not empty.
fn gather_step(job: &Job, pal: &[f32], hints: &mut [u32], i: usize, gathered: &mut Gather)
    requires { Turned (job_in job.now) pal.now hints.old i gathered.old }
    ensures { (gathered.new
        ≡ gather_step (job_in job.now) pal.now
        (winner (job_in job.now) pal.now job.now.sizes.s job.now.sizes.c i) i gathered.old)
        × (hints.new ≡ hint_step (job_in job.now) pal.now job.now.sizes.s job.now.sizes.c i hints.old) }
{
    if job.is_empty(i) {
        return;
    }
    let best = palette_tile::tile_fit(job, pal, job.sizes.s, job.sizes.c, hints, i);
    let winner = best.index;
    let sub = palette::part(pal, job.sizes.c, job.sizes.c, winner);
    quantizer_gather_tile::gather_tile(
        sub,
        &palette_tile::tile(job, i),
        job.sizes.weight,
        winner * job.sizes.c,
        gathered,
    );
}

// All tiles' parts, from sums and counts of 0. They are lent: given back, they would be copied, by a function of C that hosts would have to have.
pub fn gather_all(job: &Job, pal: &[f32], hints: &mut [u32], gathered: &mut Gather)
    requires { Shown (job_in job.now) pal.now job.now.sizes.s job.now.sizes.c × ((length hints.old ≡ job.now.sizes.t) × (gathered.old ≡ nothing)) }
    ensures { (gathered.new ≡ gather_of (job_in job.now) pal.now job.now.sizes.t)
        × (hints.new ≡ hints_of (job_in job.now) pal.now job.now.sizes.s job.now.sizes.c hints.old job.now.sizes.t) }
{
    for i in 0..job.sizes.t {
        gather_step(job, pal, hints, i, gathered);
    }
}
