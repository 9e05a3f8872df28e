// A flat palette and a tile as they are lent to be read, the parts of a palette, and the nearest colour of one.
// Each function gives what its definition in specs/Palette.antt says; no definition reads a hint.
#![tactic(auto)]

ghost use Rattle.std.specs.Prelude.{◌≡◌, ◌+◌, ◌*◌, ◌≤◌, length};
ghost use Rattle.palette.specs.Palette.{sub_of, nearest_of};

use color::Oklab;
use stats::Near;

// Four of a kind, one for each of four colours of a tile, one after the other: each is a lane of its own.
#[derive(Clone, Copy)]
pub struct Four<T> {
    pub first: T,
    pub second: T,
    pub third: T,
    pub fourth: T,
}

// Subpalettes one after the other in a flat slice, each with room for `stride` colours, of which the first `have` are present.
#[derive(Clone, Copy)]
pub struct Palette<'a> {
    pub flat: &'a [f32],
    pub stride: usize,
    pub have: usize,
    pub subs: usize,
}

impl<'a> Palette<'a> {
    // Subpalette i.
    pub fn part(&self, i: usize) -> &'a [f32]
        requires { (self.now.have ≤ self.now.stride) × (i * (3 * self.now.stride) + 3 * self.now.stride ≤ length self.now.flat.now) }
        ensures { result.now ≡ sub_of self.now.flat.now self.now.stride self.now.have i }
    {
        part(self.flat, self.stride, self.have, i)
    }
}

// A tile's colours, and how many of its pixels have each.
#[derive(Clone, Copy)]
pub struct Tile<'a> {
    pub colours: &'a [f32],
    pub counts: &'a [u32],
}

// Subpalette i of a flat palette with room for c colours in each, of which the first `have` are present.
pub fn part(pal: &[f32], c: usize, have: usize, i: usize) -> &[f32]
    requires { (have ≤ c) × (i * (3 * c) + 3 * c ≤ length pal.now) }
    ensures { result.now ≡ sub_of pal.now c have i }
{
    let at = i * (3 * c);
    let size = 3 * have;
    &pal[at..at + size]
}

// Index and squared distance of the nearest colour to q.
pub fn nearest(s: &[f32], q: Oklab, w: f32) -> Near
    ensures { result ≡ nearest_of s.now q w }
{
    let mut best = Near {
        index: 0,
        dist: f32::INFINITY,
    };
    for i in 0..s.len() / 3 {
        let d = color::oklab_sqdist(color::colour(s, i), q, w);
        best = stats::step_near(best, i, d);
    }
    best
}
