// A job: its sizes and what is lent of it; its tiles as parts of that, and the test of its components. Assumes nothing.
#![tactic(auto)]

ghost use Rattle.std.specs.Prelude.{◌≡◌, ◌+◌, ◌*◌, ◌<◌, ◌≤◌, length, not, position};
ghost use Rattle.job.specs.Job.{sizes_of, job_in, first_of, size_of, colours_part, counts_part, tile_of, counts_of, is_empty, Inside, most_subpalettes, most_colours};
ghost use Rattle.job.specs.Checks.{tile_sized, within, first_bad, bad_colour_from};

// The numbers of a call, by value: how many pixels a tile has at most, subpalettes, colours in each, tiles, samples (0 where none are
// lent), and the weight of brightness.
#[derive(Clone, Copy)]
pub struct Sizes {
    pub size: usize,
    pub s: usize,
    pub c: usize,
    pub t: usize,
    pub n: usize,
    pub weight: f32,
}

// A job as it is lent: a table of two numbers a tile, its first colour and how many it has; three numbers a colour, and a count for each.
#[derive(Clone, Copy)]
pub struct Job<'a> {
    pub sizes: Sizes,
    pub tiles: &'a [u32],
    pub colours: &'a [f32],
    pub counts: &'a [u32],
}

impl<'a> Job<'a> {
    pub fn is_empty(&self, i: usize) -> bool
        requires { 2 * i + 1 < length self.now.tiles.now }
        ensures { result ≡ is_empty (job_in self.now) i }
    {
        size_of(self.tiles, i) == 0
    }

    // The colours of tile i.
    pub fn tile_part(&self, i: usize) -> &'a [f32]
        requires { Inside 3 self.now.tiles.now i (length self.now.colours.now) }
        ensures { result.now ≡ tile_of (job_in self.now) i }
    {
        tile_part(self.tiles, self.colours, i)
    }

    // The counts of tile i.
    pub fn counts_part(&self, i: usize) -> &'a [u32]
        requires { Inside 1 self.now.tiles.now i (length self.now.counts.now) }
        ensures { result.now ≡ counts_of (job_in self.now) i }
    {
        counts_part(self.tiles, self.counts, i)
    }
}

// A tile's pixels, at most: 8 by 8, or 16 by 16.
pub const SMALL_TILE: usize = 64;

pub const LARGE_TILE: usize = 256;

pub fn is_tile_size(x: usize) -> bool
    ensures { result ≡ tile_sized x }
{
    if x == SMALL_TILE {
        return true;
    }
    x == LARGE_TILE
}

// The numbers of a call, as exports and programs have them one by one.
pub fn sizes_of(size: usize, s: usize, c: usize, t: usize, n: usize, weight: f32) -> Sizes
    ensures { result ≡ sizes_of size s c t n weight }
{
    Sizes {
        size,
        s,
        c,
        t,
        n,
        weight,
    }
}

// The magnitude of a job's component, at most.
pub const MOST_COMPONENT: f32 = 2.0;

pub fn wide(x: u32) -> usize
    ensures { result ≡ x }
{
    x as usize
}

pub fn first_of(tiles: &[u32], i: usize) -> usize
    requires { 2 * i + 1 < length tiles.now }
    ensures { result ≡ first_of tiles.now i }
{
    wide(tiles[2 * i])
}

pub fn size_of(tiles: &[u32], i: usize) -> usize
    requires { 2 * i + 1 < length tiles.now }
    ensures { result ≡ size_of tiles.now i }
{
    wide(tiles[2 * i + 1])
}

// The colours of tile i. The part lasts as long as the colours do, whatever becomes of the table.
pub fn tile_part<'a>(tiles: &[u32], colours: &'a [f32], i: usize) -> &'a [f32]
    requires { Inside 3 tiles.now i (length colours.now) }
    ensures { result.now ≡ colours_part tiles.now colours.now i }
{
    let at = 3 * first_of(tiles, i);
    let size = 3 * size_of(tiles, i);
    &colours[at..at + size]
}

// The counts of tile i.
pub fn counts_part<'a>(tiles: &[u32], counts: &'a [u32], i: usize) -> &'a [u32]
    requires { Inside 1 tiles.now i (length counts.now) }
    ensures { result.now ≡ counts_part tiles.now counts.now i }
{
    let at = first_of(tiles, i);
    let size = size_of(tiles, i);
    &counts[at..at + size]
}

// From -limit to limit: no NaN and no infinity is.
pub fn is_within(x: f32, limit: f32) -> bool
    ensures { result ≡ within limit x }
{
    if x <= limit {
        return x >= -limit;
    }
    false
}

// The index of the first component that is not within the limit.
fn bad_component(xs: &[f32], limit: f32) -> Option<usize>
    ensures { result ≡ position (λ x. not (within limit x)) xs.now }
{
    xs.iter().position(|x| !is_within(*x, limit))
}

// The index of the first component that is not within the limit, or how many there are.
pub fn first_bad(xs: &[f32], limit: f32) -> usize
    ensures { result ≡ first_bad limit xs.now }
{
    bad_component(xs, limit).unwrap_or(xs.len())
}

// The first colour with a component that is not within the limit, counted from `base`.
pub fn bad_colour(base: usize, xs: &[f32], limit: f32) -> Option<usize>
    requires { base ≤ most_subpalettes * most_colours }
    ensures { result ≡ bad_colour_from base limit xs.now }
{
    let bad = bad_component(xs, limit)?;
    Some(base + bad / 3)
}
