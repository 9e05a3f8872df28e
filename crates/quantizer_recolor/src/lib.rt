// In each subpalette the weakest-fit colour gives way to a copy of the best one, from the sums over all tiles.
// The palette is left as specs/Replacing.antt of quantizer says.
#![tactic(auto)]

ghost use Rattle.std.specs.Prelude.{◌≡◌, ◌*◌};
ghost use Rattle.job.specs.Job.{job_in};
ghost use Rattle.quantizer.specs.Replacing.{shares_in, swap_in, colour_swapped, colours_replaced};
ghost use Rattle.quantizer_color_sums.specs.Asked.{Owned};
ghost use Rattle.quantizer_recolor.specs.Row.{Row};

use job::Job;
use quantizer::Shares;

// In subpalette i, the colour that gives way becomes the one that has most.
fn replace_color(pal: &mut [f32], c: usize, i: usize, sums: &Shares<256>)
    requires { Row pal.old c i (shares_in sums.now) }
    ensures { pal.new ≡ colour_swapped pal.old c i (swap_in (shares_in sums.now) (i * c) c) }
{
    let at = i * c;
    let swap = quantizer_choice::choose(&sums.had[at..at + c], &sums.lost[at..at + c]);
    quantizer_swap::swap_color(pal, c, i, swap)
}

// A colour in each subpalette, from the sums over all tiles, which the hints assign; with one colour each there is none to replace.
pub fn replace_colors(job: &Job, pal: &mut [f32], hints: &[u32])
    requires { Owned (job_in job.now) pal.old hints.now }
    ensures { pal.new ≡ colours_replaced (job_in job.now) pal.old }
{
    if job.sizes.c == 1 {
        return;
    }
    let sums = quantizer_color_sums::color_sums(job, pal, hints);
    for i in 0..job.sizes.s {
        replace_color(pal, job.sizes.c, i, &sums);
    }
}
