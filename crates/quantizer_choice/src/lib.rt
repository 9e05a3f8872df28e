// What gives way to what: the choice among sums, as specs/Replacing.antt of quantizer says.
#![tactic(auto)]

ghost use Rattle.std.specs.Prelude.{◌≡◌};
ghost use Rattle.quantizer.specs.Replacing.{swap_of};
ghost use Rattle.quantizer_choice.specs.Choosing.{Choosing, most_and_least};

use quantizer::Swap;

// Max allowed share of what the best has, for the place that gives way: of a colour, and of a subpalette.
const MIN_FACTOR: f32 = 0.5;

// The place that has most, and the one without which least is lost, whether that gives way or not.
pub fn most_and_least(had: &[f32], lost: &[f32]) -> Swap
    requires { Choosing had.now lost.now }
    ensures { result ≡ most_and_least had.now lost.now }
{
    let from = stats_extremes::argmax(had);
    let to = stats_extremes::argmin(lost);
    Swap { from, to }
}

// The place that has most, and the one without which least is lost: it gives way where that is less than half of what the first has.
pub fn choose(had: &[f32], lost: &[f32]) -> Option<Swap>
    requires { Choosing had.now lost.now }
    ensures { result ≡ swap_of had.now lost.now }
{
    let Swap { from, to } = most_and_least(had, lost);
    let gives_way = to != from && lost[to] < MIN_FACTOR * had[from];
    gives_way.then_some(Swap { from, to })
}
