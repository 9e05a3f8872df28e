// The samples that `train` draws, one for each unit of count, tile by tile, colour by colour: how many they are, which refusal that number
// gets, and the samples in lent memory, where each function gives the place behind what it wrote. Assumes nothing.
#![tactic(auto)]

ghost use Rattle.std.specs.Prelude.{◌+◌, ◌*◌, ◌≤◌, length, ◌≡◌};
ghost use Rattle.fit_lines.specs.Lines.{Stored};
ghost use Rattle.train_samples.specs.Samples.{alike, tile_samples, units, units_to, samples_to, Countable};
ghost use Rattle.job.specs.Job.{most_tile_size};
ghost use Rattle.train_samples.specs.Refusal.{refusal_of};
ghost use Rattle.answer.specs.Refusals.{refusal_of as answered_by};

use answer::Refusal;
use job::Job;

// The samples of a tile whose counts are `part`.
fn count_tile(part: &[u32]) -> usize
    requires { units part.now ≤ most_tile_size }
    ensures { result ≡ units part.now }
{
    let mut n = 0;
    for m in part {
        n += job::wide(*m);
    }
    n
}

// The samples of a job.
pub fn count_samples(job: &Job) -> usize
    requires { Countable job.now.tiles.now job.now.counts.now job.now.sizes.t }
    ensures { result ≡ units_to job.now.tiles.now job.now.counts.now job.now.sizes.t }
{
    let mut n = 0;
    for i in 0..job.sizes.t {
        let part = job.counts_part(i);
        n += count_tile(part);
    }
    n
}

// m samples of the colour at place k of tile i.
fn put_alike(samples: &mut [u32], at: usize, i: u32, k: u32, m: u32) -> usize
    requires { at + 2 * m ≤ length samples.old }
    ensures { Stored samples.old samples.new at result (alike i k m) }
{
    let mut q = at;
    for _done in 0..m {
        samples[q] = i;
        samples[q + 1] = k;
        q += 2;
    }
    q
}

// The samples of tile i, whose counts are `part`.
fn put_tile(samples: &mut [u32], at: usize, i: u32, part: &[u32]) -> usize
    requires { (length part.now ≤ most_tile_size) × (at + 2 * units part.now ≤ length samples.old) }
    ensures { Stored samples.old samples.new at result (tile_samples i part.now (length part.now)) }
{
    let mut q = at;
    for (k, m) in part.iter().enumerate() {
        q = put_alike(samples, q, i, k as u32, *m);
    }
    q
}

// The samples of a job, from the first place on.
pub fn put_samples(job: &Job, samples: &mut [u32]) -> usize
    requires { Countable job.now.tiles.now job.now.counts.now job.now.sizes.t
        × (2 * units_to job.now.tiles.now job.now.counts.now job.now.sizes.t ≤ length samples.old) }
    ensures { Stored samples.old samples.new 0 result (samples_to job.now.tiles.now job.now.counts.now job.now.sizes.t) }
{
    let mut q = 0;
    for i in 0..job.sizes.t {
        let part = job.counts_part(i);
        q = put_tile(samples, q, i as u32, part);
    }
    q
}

const MOST_SAMPLES: usize = 16384;

// Whether so many can be drawn: none is 1, too many are 2.
pub fn refusal(n: usize) -> Result<(), Refusal>
    ensures { (answered_by result).number ≡ refusal_of n }
{
    if n == 0 {
        return Err(Refusal::NoSamples);
    }
    if n > MOST_SAMPLES {
        return Err(Refusal::Sizes);
    }
    Ok(())
}
