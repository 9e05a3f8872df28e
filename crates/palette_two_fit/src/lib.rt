// The two subpalettes that fit a tile best, from any hint. The definitions are those of `palette_two`; none reads a hint.
#![tactic(auto)]

ghost use Rattle.std.specs.Prelude.{◌≡◌, ◌<◌};
ghost use Rattle.palette.specs.Palette.{palette_in, tile_in, Fits};
ghost use Rattle.palette_two.specs.PaletteTwo.{best_two};

use palette::{Palette, Tile};
use stats::Two;

// Indexes and distances of the subpalette that fits a tile best and of the next best. The search starts at the hint.
pub fn best_two_from(palette: &Palette, tile: &Tile, w: f32, hint: usize) -> Two
    requires { Fits (palette_in palette.now) (tile_in tile.now) w × (hint < palette.now.subs) }
    ensures { result ≡ best_two (palette_in palette.now) (tile_in tile.now) w }
{
    let first = palette_distance::tile_distance(palette.part(hint), tile, w);
    let mut b = Two {
        index: hint,
        dist: first,
        next: hint,
        second: f32::INFINITY,
    };
    for i in 0..palette.subs {
        if i == hint {
            continue;
        }
        // Anything over the runner-up can't change the outcome; a lower index at its distance can.
        let sub = palette.part(i);
        let Some(d) = palette_distance::distance_within(sub, tile, w, b.second) else {
            continue;
        };
        b = palette_two::weigh(b, i, d);
    }
    b
}
