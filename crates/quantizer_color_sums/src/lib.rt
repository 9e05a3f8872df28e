// The sums by colour that replacing the weakest is decided by, over all tiles of a job: what each has, and what would be added without it, from the two
// nearest of each tile colour in the subpalette that its tile goes to. They are what specs/Replacing.antt of quantizer says.
#![tactic(auto)]

ghost use Rattle.std.specs.Prelude.{◌≡◌};
ghost use Rattle.job.specs.Job.{job_in};
ghost use Rattle.quantizer.specs.Replacing.{shares_in, owner_of, spread_step, spread_of};
ghost use Rattle.quantizer_color_sums.specs.Asked.{Owned, OwnerTurn};

use job::Job;
use quantizer::Shares;

// Tile i's part in the sums by colour: colour j of subpalette k is at the place k * c + j.
fn color_step(job: &Job, pal: &[f32], hints: &[u32], i: usize, sums: &mut Shares<256>)
    requires { OwnerTurn (job_in job.now) pal.now hints.now i }
    ensures { shares_in sums.new ≡ spread_step (job_in job.now) pal.now (owner_of (job_in job.now) pal.now i) i (shares_in sums.old) }
{
    let owner = quantizer_owner::nearest_palette_of(job.sizes.s, hints, i);
    let sub = palette::part(pal, job.sizes.c, job.sizes.c, owner);
    quantizer_matches_two::for_each_match_two(
        sub,
        &palette_tile::tile(job, i),
        job.sizes.weight,
        owner * job.sizes.c,
        &mut sums.had,
        &mut sums.lost,
    )
}

// What each colour has, and what would be added without it, from the hints that palette_sums left.
pub fn color_sums(job: &Job, pal: &[f32], hints: &[u32]) -> Shares<256>
    requires { Owned (job_in job.now) pal.now hints.now }
    ensures { shares_in result
        ≡ spread_of (job_in job.now) pal.now (owner_of (job_in job.now) pal.now) job.now.sizes.t }
{
    let mut sums = Shares {
        had: [0.0; 256],
        lost: [0.0; 256],
    };
    for i in 0..job.sizes.t {
        color_step(job, pal, hints, i, &mut sums);
    }
    sums
}
