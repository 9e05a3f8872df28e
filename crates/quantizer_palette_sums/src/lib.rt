// The sums by subpalette that replacing the weakest is decided by, over all tiles of a job, the empty ones too: what each has, and what would be added
// without it, from the best two of each tile. They are what specs/Replacing.antt of quantizer says; the hints then name each tile's best.
#![tactic(auto)]

ghost use Rattle.std.specs.Prelude.{◌≡◌, ◌<◌, length};
ghost use Rattle.job.specs.Job.{job_in, most_subpalettes};
ghost use Rattle.palette_tile.specs.Tiles.{Shown};
ghost use Rattle.quantizer.specs.Replacing.{shares_in, share_with, shares_of, pair_hints};

use job::Job;
use quantizer::Shares;
use stats::Two;

// A tile's best two, to the sums of the best.
fn add_two(sums: &mut Shares<16>, r: Two)
    requires { r.index < most_subpalettes }
    ensures { shares_in sums.new ≡ share_with r (shares_in sums.old) }
{
    let i = r.index;
    sums.had[i] += r.dist;
    sums.lost[i] += r.second;
}

// What each subpalette has, and what would be added without it; the hints then name each tile's best. An empty tile goes through
// best_two too, so that its hint becomes 0.
pub fn palette_sums(job: &Job, pal: &[f32], hints: &mut [u32]) -> Shares<16>
    requires { Shown (job_in job.now) pal.now job.now.sizes.s job.now.sizes.c × (length hints.old ≡ job.now.sizes.t) }
    ensures { (shares_in result ≡ shares_of (job_in job.now) pal.now job.now.sizes.t)
        × (hints.new ≡ pair_hints (job_in job.now) pal.now hints.old job.now.sizes.t) }
{
    let mut sums = Shares {
        had: [0.0; 16],
        lost: [0.0; 16],
    };
    for i in 0..job.sizes.t {
        let r = palette_tile::tile_two(job, pal, job.sizes.s, job.sizes.c, hints, i);
        add_two(&mut sums, r);
    }
    sums
}
