// The numbers of a job that have limits of their own, and how its sizes, its slices' lengths and its components are refused.
// What a stranger wrote is taken: no product in it can wrap.
#![tactic(auto)]

ghost use Rattle.std.specs.Prelude.{◌≡◌, ◌*◌, ◌≤◌};
ghost use Rattle.answer.specs.Refusals.{refusal_of};
ghost use Rattle.answer.specs.Rules.{answer};
ghost use Rattle.job.specs.Checks.{among, weight_fits, size_rules, shape_rules, bound_rules};
ghost use Rattle.job.specs.Job.{most_tiles, most_subpalettes, most_colours};

use answer::Refusal;
use job::{Job, Sizes};

const MOST_SUBPALETTES: usize = 16;

const MOST_COLOURS: usize = 16;

const MOST_TILES: usize = 1024;

const MOST_WEIGHT: f32 = 16.0;

// From 1 to most.
pub fn is_among(x: usize, most: usize) -> bool
    ensures { result ≡ among x most }
{
    1 <= x && x <= most
}

pub fn weight_fits(w: f32) -> bool
    ensures { result ≡ weight_fits w }
{
    w > 0.0 && w <= MOST_WEIGHT
}

// The tests of sizes that every call shares.
pub fn check_sizes(z: Sizes) -> Result<(), Refusal>
    ensures { refusal_of result ≡ answer (size_rules z.size z.s z.c z.t) }
{
    if !job::is_tile_size(z.size) {
        return Err(Refusal::Sizes);
    }
    if !is_among(z.s, MOST_SUBPALETTES) {
        return Err(Refusal::Sizes);
    }
    if !is_among(z.c, MOST_COLOURS) {
        return Err(Refusal::Sizes);
    }
    if !is_among(z.t, MOST_TILES) {
        return Err(Refusal::Sizes);
    }
    Ok(())
}

// The lengths of the slices that every call has: two numbers a tile, three a colour.
pub fn check_shapes(job: &Job) -> Result<(), Refusal>
    requires { job.now.sizes.t ≤ most_tiles }
    ensures { refusal_of result ≡ answer (shape_rules job.now.sizes.t job.now.tiles.now job.now.colours.now job.now.counts.now) }
{
    if job.tiles.len() != 2 * job.sizes.t {
        return Err(Refusal::Lengths);
    }
    if job.colours.len() != 3 * job.counts.len() {
        return Err(Refusal::Lengths);
    }
    Ok(())
}

// The components of a call without samples: the palette's colours, then those of the tiles, which go on counting.
pub fn check_bounds(job: &Job, palette: &[f32]) -> Result<(), Refusal>
    requires { job.now.sizes.s * job.now.sizes.c ≤ most_subpalettes * most_colours }
    ensures { refusal_of result ≡ answer (bound_rules (job.now.sizes.s * job.now.sizes.c) palette.now job.now.colours.now) }
{
    if let Some(i) = job::bad_colour(0, palette, job::MOST_COMPONENT) {
        return Err(Refusal::Colour(i));
    }
    let cells = job.sizes.s * job.sizes.c;
    if let Some(i) = job::bad_colour(cells, job.colours, job::MOST_COMPONENT) {
        return Err(Refusal::Colour(i));
    }
    Ok(())
}
