// The public call `assign`, from `assign_subpalettes` of the Rust: for each tile the subpalette that fits it best.
// It first asks for the first rule broken, over shared slices, so that a refusal writes nothing.
#![tactic(auto)]

ghost use Rattle.std.specs.Prelude.{◌≡◌};
ghost use Rattle.job.specs.Job.{job_in};
ghost use Rattle.assign_tiles.specs.Tiles.{tile_memory};
ghost use Rattle.answer.specs.Outcome.{outcome};
ghost use Rattle.answer.specs.Refusals.{refusal_of};
ghost use Rattle.assign.specs.Assign.{assign_def};

use answer::Refusal;
use job::Job;

// The subpalette that fits each tile best, in `out`, and in `hints` for a tile that is not empty. A refusal writes nothing.
pub fn assign(job: &Job, palette: &[f32], hints: &mut [u32], out: &mut [u32]) -> Result<(), Refusal>
    ensures { outcome (refusal_of result) (tile_memory hints.new out.new) ≡ assign_def (job_in job.now) palette.now (tile_memory hints.old out.old) }
{
    assign_check::check_assign(job, palette, hints.len(), out.len())?;
    assign_tiles::assign_tiles(job, palette, hints, out);
    Ok(())
}
