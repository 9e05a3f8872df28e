// The tables of a job, each walked once: its tiles, the counts of each tile, the samples.
// They take what a stranger wrote: a sum is tested by a difference, so that none can wrap.
#![tactic(auto)]

ghost use Rattle.std.specs.Prelude.{◌≡◌, true, ◌*◌, length};
ghost use Rattle.job.specs.Checks.{tiles_fit, part_fits, counts_fit, samples_fit};

use job::Job;

// `total` colours are told, whatever is lent of them.
pub fn tiles_fit(job: &Job, total: usize) -> bool
    requires { length job.now.tiles.now ≡ 2 * job.now.sizes.t }
    ensures { result ≡ tiles_fit job.now.sizes.size total job.now.tiles.now job.now.sizes.t }
{
    let mut at = 0;
    for i in 0..job.sizes.t {
        let n = job::size_of(job.tiles, i);
        if !job_entries::tile_fits(job.sizes.size, total, at, job::first_of(job.tiles, i), n) {
            return false;
        }
        at += n;
    }
    at == total
}

// The counts of one tile.
fn part_fits(size: usize, part: &[u32]) -> bool
    ensures { result ≡ part_fits size part.now }
{
    let mut done = 0;
    for count in part {
        let n = job::wide(*count);
        if !job_entries::count_fits(size, done, n) {
            return false;
        }
        done += n;
    }
    true
}

pub fn counts_fit(job: &Job) -> bool
    requires { (length job.now.tiles.now ≡ 2 * job.now.sizes.t)
        × (tiles_fit job.now.sizes.size (length job.now.counts.now) job.now.tiles.now job.now.sizes.t ≡ true) }
    ensures { result ≡ counts_fit job.now.sizes.size job.now.tiles.now job.now.counts.now job.now.sizes.t }
{
    for i in 0..job.sizes.t {
        let part = job.counts_part(i);
        if !part_fits(job.sizes.size, part) {
            return false;
        }
    }
    true
}

pub fn samples_fit(job: &Job, samples: &[u32]) -> bool
    requires { (length job.now.tiles.now ≡ 2 * job.now.sizes.t) × (length samples.now ≡ 2 * job.now.sizes.n) }
    ensures { result ≡ samples_fit job.now.tiles.now job.now.sizes.t samples.now job.now.sizes.n }
{
    for i in 0..job.sizes.n {
        if !job_entries::sample_fits(
            job,
            job::wide(samples[2 * i]),
            job::wide(samples[2 * i + 1]),
        ) {
            return false;
        }
    }
    true
}
