// The palette after the choice of what gives way to what. Only present colours move. Assumes nothing.
#![tactic(auto)]

ghost use Rattle.std.specs.Prelude.{◌≡◌, ◌+◌, ◌*◌, ◌≤◌, ◌<◌, length, IfSome};
ghost use Rattle.quantizer.specs.Replacing.{colour_swapped, sub_swapped};

use quantizer::Swap;

// In subpalette i, colour `to` becomes colour `from`, where one gives way.
#[tactic(auto, unfolding(quantizer::specs::Replacing::colour_swapped))]
pub fn swap_color(pal: &mut [f32], c: usize, i: usize, swap: Option<Swap>)
    requires { IfSome swap (λ s. (3 * (i * c + s.from) + 2 < length pal.old) × (3 * (i * c + s.to) + 2 < length pal.old)) }
    ensures { pal.new ≡ colour_swapped pal.old c i swap }
{
    if let Some(Swap { from, to }) = swap {
        palette_edit::copy_color(pal, c, i, from, to)
    }
}

// Subpalette `to` becomes subpalette `from`, of c colours each, where one gives way.
#[tactic(auto, unfolding(quantizer::specs::Replacing::sub_swapped))]
pub fn swap_subpalette(pal: &mut [f32], c: usize, swap: Option<Swap>)
    requires { IfSome swap (λ s. (s.from * (3 * c) + 3 * c ≤ length pal.old) × (s.to * (3 * c) + 3 * c ≤ length pal.old)) }
    ensures { pal.new ≡ sub_swapped pal.old c swap }
{
    if let Some(Swap { from, to }) = swap {
        palette_edit::copy_subpalette(pal, c, c, from, to)
    }
}
