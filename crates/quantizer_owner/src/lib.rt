// The subpalette that a tile goes to, by its hint. Assumes nothing.
#![tactic(auto)]

ghost use Rattle.std.specs.Prelude.{◌≡◌, ◌<◌, length};
ghost use Rattle.quantizer_owner.specs.Owner.{owner_in};

// The subpalette that tile i goes to: its hint, once best_two has set it. At one subpalette none was asked for.
pub fn nearest_palette_of(s: usize, hints: &[u32], i: usize) -> usize
    requires { i < length hints.now }
    ensures { result ≡ owner_in s hints.now i }
{
    if s > 1 { hints[i] as usize } else { 0 }
}
