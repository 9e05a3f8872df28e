// One tile's part of the sums and the counts of a refinement: each of its colours goes to the nearest colour of one subpalette.
// They are what the definitions in quantizer's specs/Refining.antt say.
#![tactic(auto)]

ghost use Rattle.std.specs.Prelude.{◌≡◌, length};
ghost use Rattle.palette.specs.Palette.{tile_in};
ghost use Rattle.quantizer.specs.Refining.{add_at, tile_gather};
ghost use Rattle.quantizer_gather_tile.specs.Gathers.{Adding, Gathering};

use color::Oklab;
use palette::Tile;
use quantizer::Gather;

// m pixels of the colour q go to the sum and the count at p.
fn add_at(gathered: &mut Gather, p: usize, q: Oklab, m: u32)
    requires { Adding gathered.old p m }
    ensures { gathered.new ≡ add_at gathered.old p q m }
{
    let x = color::colour(&gathered.sums, p);
    color::put(&mut gathered.sums, p, color::plus_times(x, q, m));
    gathered.cnts[p] += m;
}

// A tile's colours go to the colours of `sub` that are nearest to them, whose sums begin at `base`. Why this is not quantizer_matches' walk,
// that says.
pub fn gather_tile(sub: &[f32], tile: &Tile, w: f32, base: usize, gathered: &mut Gather)
    requires { Gathering sub.now (tile_in tile.now) base gathered.old }
    ensures { gathered.new ≡ tile_gather sub.now (tile_in tile.now) w base gathered.old (length tile.now.counts.now) }
{
    for (k, &pixels) in tile.counts.iter().enumerate() {
        let q = color::colour(tile.colours, k);
        let near = palette::nearest(sub, q, w);
        add_at(gathered, base + near.index, q, pixels);
    }
}
