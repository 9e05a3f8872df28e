// One match added to both sums of the colour that it goes to, as in specs of quantizer. The sums are of any lengths.
#![tactic(auto)]

ghost use Rattle.std.specs.Prelude.{◌≡◌, ◌<◌, ◌≤◌, length};
ghost use Rattle.quantizer.specs.Replacing.{shares, add_shares};

use stats::Two;

// m pixels, whose two nearest colours are r, to the sums of colour p.
pub fn add_match(had: &mut [f32], lost: &mut [f32], p: usize, r: Two, m: u32)
    requires { (p < length had.old) × ((p < length lost.old) × (m ≤ 16777216)) }
    ensures { shares had.new lost.new ≡ add_shares (shares had.old lost.old) p r m }
{
    let f = m as f32;
    had[p] += r.dist * f;
    lost[p] += r.second * f;
}
