// The subpalette that fits each tile of a job best, one tile after the other.
// Assumes a job and a palette that passed, and a place for each tile.
#![tactic(auto)]

ghost use Rattle.std.specs.Prelude.{◌≡◌};
ghost use Rattle.job.specs.Job.{job_in};
ghost use Rattle.assign_tiles.specs.Tiles.{tile_memory, assign_step, assigned, CanAssign, Turn};

use job::Job;

// Writes tile i's subpalette, and its hint where it is not empty.
fn assign_tile(job: &Job, palette: &[f32], hints: &mut [u32], out: &mut [u32], i: usize)
    requires { Turn (job_in job.now) palette.now (tile_memory hints.old out.old) i }
    ensures { tile_memory hints.new out.new ≡ assign_step (job_in job.now) palette.now i (tile_memory hints.old out.old) }
{
    if job.is_empty(i) {
        out[i] = 0;
        return;
    }
    let best = palette_tile::tile_fit(job, palette, job.sizes.s, job.sizes.c, hints, i);
    let sub = best.index as u32;
    out[i] = sub;
}

pub fn assign_tiles(job: &Job, palette: &[f32], hints: &mut [u32], out: &mut [u32])
    requires { CanAssign (job_in job.now) palette.now (tile_memory hints.old out.old) }
    ensures { tile_memory hints.new out.new
        ≡ assigned (job_in job.now) palette.now
        (tile_memory hints.old out.old) job.now.sizes.t }
{
    for i in 0..job.sizes.t {
        assign_tile(job, palette, hints, out, i);
    }
}
