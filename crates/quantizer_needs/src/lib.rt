// The summed distance of each colour over a job's tiles, each in the subpalette that fits it best: what growing splits a colour by.
// The sums and the hints are what specs/Growing.antt of quantizer says.
#![tactic(auto)]

ghost use Rattle.std.specs.Prelude.{◌≡◌};
ghost use Rattle.job.specs.Job.{job_in};
ghost use Rattle.palette_tile.specs.Tiles.{winner, hint_step};
ghost use Rattle.quantizer.specs.Sums.{zeros, places};
ghost use Rattle.quantizer.specs.Growing.{need_step, grown_hints};
ghost use Rattle.quantizer_needs.specs.Asked.{split_sums, NeedTurn, Growing};

use job::Job;

// Tile i's part in the sums by colour, in the subpalette that fits it best: colour j of subpalette k is at the place k * c + j.
// An empty tile is passed over, and keeps its hint.
fn tile_step(job: &Job, pal: &[f32], have: usize, hints: &mut [u32], i: usize, total: &mut [f32])
    requires { NeedTurn (job_in job.now) pal.now have hints.old i total.old }
    ensures { (total.new ≡ need_step (job_in job.now) pal.now have
        (winner (job_in job.now) pal.now job.now.sizes.s have i) i total.old)
        × (hints.new ≡ hint_step (job_in job.now) pal.now job.now.sizes.s have i hints.old) }
{
    if job.is_empty(i) {
        return;
    }
    let best = palette_tile::tile_fit(job, pal, job.sizes.s, have, hints, i);
    let winner = best.index;
    let sub = palette::part(pal, job.sizes.c, have, winner);
    quantizer_matches::for_each_match(
        sub,
        &palette_tile::tile(job, i),
        job.sizes.weight,
        winner * job.sizes.c,
        total,
    )
}

// The summed distance of each colour over the tiles; none is fitted where one colour each is present.
// The sums are lent: given back, they would be copied, by a function of C that hosts would have to have.
pub fn color_distances(job: &Job, pal: &[f32], have: usize, hints: &mut [u32], total: &mut [f32])
    requires { Growing (job_in job.now) pal.now have hints.old × (total.old ≡ zeros places) }
    ensures { (total.new ≡ split_sums (job_in job.now) pal.now have)
        × (hints.new ≡ grown_hints (job_in job.now) pal.now have hints.old) }
{
    if have == 1 {
        return;
    }
    for i in 0..job.sizes.t {
        tile_step(job, pal, have, hints, i, total);
    }
}
