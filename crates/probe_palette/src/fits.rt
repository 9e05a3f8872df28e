// Forwarders to palettes' fits and view. Assumes of callers what each callee requires.
ghost use Rattle.std.specs.Prelude.{◌≡◌, ◌≤◌, length};
ghost use Rattle.palette.specs.Palette.{palette_in, palette_with, tile_with, Measured, Fits, Hinted};

use color::Oklab;
use palette::{Palette, Tile};

fn palette_of<'a>(flat: &'a [f32], stride: usize, have: usize, subs: usize) -> Palette<'a>
    ensures { palette_in result ≡ palette_with flat.entry.now stride have subs }
{
    Palette {
        flat,
        stride,
        have,
        subs,
    }
}

#[unsafe(no_mangle)]
pub extern "C" fn probe_nearest(
    sub: &[f32],
    l: f32,
    a: f32,
    b: f32,
    weight: f32,
    dist: &mut f32,
) -> usize {
    let near = palette::nearest(sub, Oklab { l, a, b }, weight);
    *dist = near.dist;
    near.index
}

#[unsafe(no_mangle)]
pub extern "C" fn probe_tile_distance(sub: &[f32], tile: &[f32], counts: &[u32], weight: f32) -> f32
    requires { Measured sub.now (tile_with tile.now counts.now) weight }
{
    palette_distance::tile_distance(
        sub,
        &Tile {
            colours: tile,
            counts,
        },
        weight,
    )
}

#[unsafe(no_mangle)]
pub extern "C" fn probe_best_fit(
    pal: &[f32],
    c: usize,
    have: usize,
    n: usize,
    tile: &[f32],
    counts: &[u32],
    weight: f32,
    hints: &mut [u32],
    t: usize,
    dist: &mut f32,
) -> usize
    requires { Fits (palette_with pal.now c have n) (tile_with tile.now counts.now) weight × ((1 ≤ length counts.now) × Hinted n hints.old t) }
{
    let near = palette_hint::best_fit(
        &palette_of(pal, c, have, n),
        &Tile {
            colours: tile,
            counts,
        },
        weight,
        hints,
        t,
    );
    *dist = near.dist;
    near.index
}

#[unsafe(no_mangle)]
pub extern "C" fn probe_nearest_two(
    sub: &[f32],
    l: f32,
    a: f32,
    b: f32,
    weight: f32,
    dist: &mut f32,
    next: &mut usize,
    second: &mut f32,
) -> usize {
    let two = palette_two::nearest_two(sub, Oklab { l, a, b }, weight);
    *dist = two.dist;
    *next = two.next;
    *second = two.second;
    two.index
}

#[unsafe(no_mangle)]
pub extern "C" fn probe_best_two(
    pal: &[f32],
    c: usize,
    have: usize,
    n: usize,
    tile: &[f32],
    counts: &[u32],
    weight: f32,
    hints: &mut [u32],
    t: usize,
    dist: &mut f32,
    next: &mut usize,
    second: &mut f32,
) -> usize
    requires { Fits (palette_with pal.now c have n) (tile_with tile.now counts.now) weight × Hinted n hints.old t }
{
    let two = palette_hint::best_two(
        &palette_of(pal, c, have, n),
        &Tile {
            colours: tile,
            counts,
        },
        weight,
        hints,
        t,
    );
    *dist = two.dist;
    *next = two.next;
    *second = two.second;
    two.index
}

#[unsafe(no_mangle)]
pub extern "C" fn probe_view_nearest(
    sub: &[f32],
    l: f32,
    a: f32,
    b: f32,
    weight: f32,
    dist: &mut f32,
) -> usize {
    let near = palette_view::nearest_in(sub, Oklab { l, a, b }, weight);
    *dist = near.dist;
    near.index
}

#[unsafe(no_mangle)]
pub extern "C" fn probe_view_nearest_two(
    sub: &[f32],
    l: f32,
    a: f32,
    b: f32,
    weight: f32,
    dist: &mut f32,
    next: &mut usize,
    second: &mut f32,
) -> usize {
    let two = palette_view::nearest_two_in(sub, Oklab { l, a, b }, weight);
    *dist = two.dist;
    *next = two.next;
    *second = two.second;
    two.index
}
