// One pass of refinement: each colour becomes the mean of the tile colours that are nearest to it, where there are any.
// It is what the definitions in quantizer's specs/Refining.antt say. A mean is written only after all sums are complete, so into the palette itself.
#![tactic(auto)]

ghost use Rattle.std.specs.Prelude.{◌≡◌, length};
ghost use Rattle.job.specs.Job.{job_in};
ghost use Rattle.palette_tile.specs.Tiles.{hints_of, Shown};
ghost use Rattle.quantizer.specs.Refining.{means_of, refined};
ghost use Rattle.quantizer_mean.specs.Means.{Meaning};

use job::Job;
use quantizer::Gather;

// The first n colours become the means of their sums.
fn write_means(pal: &mut [f32], n: usize, gathered: &Gather)
    requires { Meaning pal.old n gathered.now }
    ensures { pal.new ≡ means_of pal.old gathered.now n }
{
    for p in 0..n {
        quantizer_mean::mean_at(pal, p, gathered);
    }
}

// All s subpalettes of c colours are recentred; the hints name each tile's winner.
pub fn refine(job: &Job, pal: &mut [f32], hints: &mut [u32])
    requires { Shown (job_in job.now) pal.old job.now.sizes.s job.now.sizes.c × (length hints.old ≡ job.now.sizes.t) }
    ensures { (pal.new ≡ refined (job_in job.now) pal.old)
        × (hints.new ≡ hints_of (job_in job.now) pal.old job.now.sizes.s job.now.sizes.c hints.old job.now.sizes.t) }
{
    let mut gathered = Gather {
        sums: [0.0; 768],
        cnts: [0; 256],
    };
    quantizer_gather::gather_all(job, pal, hints, &mut gathered);
    write_means(pal, job.sizes.s * job.sizes.c, &gathered);
}
