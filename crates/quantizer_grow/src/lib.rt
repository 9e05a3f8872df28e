// Grows every subpalette by one colour, splitting off each palette's currently weakest-fit colour.
// The palette and the hints are left as specs/Growing.antt of quantizer says; the copy stands after the colours present.
#![tactic(auto)]

ghost use Rattle.std.specs.Prelude.{◌≡◌, ◌*◌};
ghost use Rattle.job.specs.Job.{job_in};
ghost use Rattle.palette_edit.specs.Edits.{colour_copied};
ghost use Rattle.quantizer.specs.Sums.{sums_at, greatest};
ghost use Rattle.quantizer.specs.Growing.{grown, grown_hints};
ghost use Rattle.quantizer_needs.specs.Asked.{Growing};
ghost use Rattle.quantizer_grow.specs.Split.{Split};

use job::Job;

// Subpalette i gets its colour of greatest sum once more, the last of those, as its next.
fn split_color(pal: &mut [f32], c: usize, have: usize, i: usize, total: &[f32])
    requires { Split pal.old c have i total.now }
    ensures { pal.new ≡ colour_copied pal.old c i (greatest (sums_at total.now (i * c) have)) have }
{
    let at = i * c;
    let split = stats_extremes::argmax(&total[at..at + have]);
    palette_edit::duplicate_color(pal, c, have, i, split)
}

// A colour more in every subpalette, of which each has `have`, fewer than its c.
pub fn grow_palette(job: &Job, pal: &mut [f32], have: usize, hints: &mut [u32])
    requires { Growing (job_in job.now) pal.old have hints.old }
    ensures { (pal.new ≡ grown (job_in job.now) pal.old have)
        × (hints.new ≡ grown_hints (job_in job.now) pal.old have hints.old) }
{
    let mut total_color_distances = [0.0f32; 256];
    quantizer_needs::color_distances(job, pal, have, hints, &mut total_color_distances);
    for i in 0..job.sizes.s {
        split_color(pal, job.sizes.c, have, i, &total_color_distances);
    }
}
