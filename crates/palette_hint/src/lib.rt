// The best fit and the best two for a tile, from its hint, which then names the best. (Two functions: what they ask and give differs,
// and one over a closure for the search would have to state its contract anew.)
#![tactic(auto)]

ghost use Rattle.std.specs.Prelude.{◌≡◌, ◌≤◌, length, set};
ghost use Rattle.palette.specs.Palette.{palette_in, tile_in, best_fit, Fits, Hinted};
ghost use Rattle.palette_two.specs.PaletteTwo.{best_two};

use palette::{Palette, Tile};
use stats::{Near, Two};

// Index and distance of the subpalette that fits a tile best, from the tile's hint, which then names it.
pub fn best_fit(palette: &Palette, tile: &Tile, w: f32, hints: &mut [u32], t: usize) -> Near
    requires { Fits (palette_in palette.now) (tile_in tile.now) w × ((1 ≤ length tile.now.counts.now) × Hinted palette.now.subs hints.old t) }
    ensures { (result ≡ best_fit (palette_in palette.now) (tile_in tile.now) w) × (hints.new ≡ set hints.old t result.index) }
{
    let hint = (hints[t] as usize).min(palette.subs - 1);
    let best = palette_fit::best_from(palette, tile, w, hint);
    hints[t] = best.index as u32;
    best
}

// The best two for a tile, which may be empty, from the tile's hint, which then names the best.
pub fn best_two(palette: &Palette, tile: &Tile, w: f32, hints: &mut [u32], t: usize) -> Two
    requires { Fits (palette_in palette.now) (tile_in tile.now) w × Hinted palette.now.subs hints.old t }
    ensures { (result ≡ best_two (palette_in palette.now) (tile_in tile.now) w) × (hints.new ≡ set hints.old t result.index) }
{
    let hint = (hints[t] as usize).min(palette.subs - 1);
    let two = palette_two_fit::best_two_from(palette, tile, w, hint);
    hints[t] = two.index as u32;
    two
}
