// One entry of each table of a job: a tile, a count, a sample.
// They take what a stranger wrote: a sum is tested by a difference, so that none can wrap.
#![tactic(auto)]

ghost use Rattle.std.specs.Prelude.{◌≡◌, ◌*◌, ◌≤◌, length};
ghost use Rattle.job.specs.Checks.{tile_test, count_test, sample_test};

use job::Job;

// A tile of n colours from `first` on, where those before it end at `at`.
pub fn tile_fits(size: usize, total: usize, at: usize, first: usize, n: usize) -> bool
    requires { at ≤ total }
    ensures { result ≡ tile_test size total at first n }
{
    first == at && n <= size && n <= total - at
}

// A count of n pixels after `done`.
pub fn count_fits(size: usize, done: usize, n: usize) -> bool
    requires { done ≤ size }
    ensures { result ≡ count_test size done n }
{
    n != 0 && n <= size - done
}

pub fn sample_fits(job: &Job, tile: usize, place: usize) -> bool
    requires { length job.now.tiles.now ≡ 2 * job.now.sizes.t }
    ensures { result ≡ sample_test job.now.tiles.now job.now.sizes.t tile place }
{
    tile < job.sizes.t && place < job::size_of(job.tiles, tile)
}
