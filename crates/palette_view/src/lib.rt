// A view of a subpalette: a struct that refers to the caller's colours, three numbers each, and thin functions over it.
// The functions at the end have plain parameters, the one for the nearest and one for the nearest two: each has a result and a definition
// of its own, and one generic function would need a trait with a law for two calls. Assumes nothing.
#![tactic(auto)]

ghost use Rattle.std.specs.Prelude.{◌≡◌};
ghost use Rattle.palette.specs.Palette.{nearest_of};
ghost use Rattle.palette_two.specs.PaletteTwo.{nearest_two_of};

use color::Oklab;
use stats::{Near, Two};

#[derive(Drop)]
pub struct SubpaletteView<'a> {
    pub colors: &'a [f32],
}

impl<'a> SubpaletteView<'a> {
    // View of colours that are already what they are to be.
    pub fn exact(colors: &'a [f32]) -> SubpaletteView<'a>
        ensures { result.colors ≡ colors.entry }
    {
        SubpaletteView { colors }
    }

    // Index and squared distance of the nearest colour to q.
    pub fn nearest(self, q: Oklab, w: f32) -> Near
        ensures { result ≡ nearest_of self.entry.colors.now q w }
    {
        palette::nearest(self.colors, q, w)
    }

    // Index and distances of the two colours nearest to q.
    pub fn nearest_two(self, q: Oklab, w: f32) -> Two
        ensures { result ≡ nearest_two_of self.entry.colors.now q w }
    {
        palette_two::nearest_two(self.colors, q, w)
    }
}

pub fn nearest_in(colors: &[f32], q: Oklab, w: f32) -> Near
    ensures { result ≡ nearest_of colors.now q w }
{
    SubpaletteView::exact(colors).nearest(q, w)
}

pub fn nearest_two_in(colors: &[f32], q: Oklab, w: f32) -> Two
    ensures { result ≡ nearest_two_of colors.now q w }
{
    SubpaletteView::exact(colors).nearest_two(q, w)
}
