// Finds the weakest-fit colour of each subpalette and the weakest whole subpalette, and replaces them with a copy of the best one.
// The palette and the hints are left as specs/Replacing.antt of quantizer says; only present colours move.
#![tactic(auto)]

ghost use Rattle.std.specs.Prelude.{◌≡◌, length};
ghost use Rattle.job.specs.Job.{job_in};
ghost use Rattle.palette_tile.specs.Tiles.{Shown};
ghost use Rattle.quantizer.specs.Replacing.{replaced, replaced_hints};
ghost use Rattle.quantizer_replace.specs.Weakest.{weakest_of};

use job::Job;
use quantizer::Swap;

// The subpalette that gives way and the one that has most, from the sums over all tiles; with one subpalette no best_two is asked for.
fn weakest_palette(job: &Job, pal: &[f32], hints: &mut [u32]) -> Option<Swap>
    requires { Shown (job_in job.now) pal.now job.now.sizes.s job.now.sizes.c × (length hints.old ≡ job.now.sizes.t) }
    ensures { (result ≡ weakest_of (job_in job.now) pal.now)
        × (hints.new ≡ replaced_hints (job_in job.now) pal.now hints.old) }
{
    let subs = job.sizes.s;
    if subs == 1 {
        return None;
    }
    let sums = quantizer_palette_sums::palette_sums(job, pal, hints);
    quantizer_choice::choose(&sums.had[0..subs], &sums.lost[0..subs])
}

// A colour in each subpalette, then a subpalette.
pub fn replace_weakest(job: &Job, pal: &mut [f32], hints: &mut [u32])
    requires { Shown (job_in job.now) pal.old job.now.sizes.s job.now.sizes.c × (length hints.old ≡ job.now.sizes.t) }
    ensures { (pal.new ≡ replaced (job_in job.now) pal.old)
        × (hints.new ≡ replaced_hints (job_in job.now) pal.old hints.old) }
{
    // From the palette as it stands: the replaced colours do not count.
    let weakest = weakest_palette(job, pal, hints);
    quantizer_recolor::replace_colors(job, pal, hints);
    quantizer_swap::swap_subpalette(pal, job.sizes.c, weakest)
}
