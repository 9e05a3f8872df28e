// The matches between one tile and one subpalette, each added to the sum of the colour that it goes to.
// The sums of the subpalette's colours begin at `base`; colour by colour of the tile, in order, as in specs of quantizer.
#![tactic(auto)]

ghost use Rattle.std.specs.Prelude.{◌≡◌, length};
ghost use Rattle.palette.specs.Palette.{tile_in};
ghost use Rattle.quantizer.specs.Growing.{tile_needs};
ghost use Rattle.quantizer_matches.specs.Matches.{Matched};

use palette::Tile;

// The distance of each colour's nearest, times its count. This walk and quantizer_gather_tile's stay two: one that takes a closure would have
// to say what each call asks of the sums, and what all calls leave in them, in more lines than both loops have.
pub fn for_each_match(sub: &[f32], tile: &Tile, w: f32, base: usize, total: &mut [f32])
    requires { Matched sub.now (tile_in tile.now) base (length total.old) }
    ensures { total.new ≡ tile_needs sub.now (tile_in tile.now) w base total.old (length tile.now.counts.now) }
{
    for (k, &pixels) in tile.counts.iter().enumerate() {
        let near = palette::nearest(sub, color::colour(tile.colours, k), w);
        let p = base + near.index;
        let m = pixels as f32;
        total[p] += near.dist * m;
    }
}
