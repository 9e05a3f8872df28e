// One colour in a pass of refinement: it becomes the mean of its sum, where pixels were counted.
#![tactic(auto)]

ghost use Rattle.std.specs.Prelude.{◌≡◌, ◌+◌};
ghost use Rattle.quantizer.specs.Refining.{mean_step};
ghost use Rattle.quantizer_mean.specs.Means.{Meaning};

use quantizer::Gather;

// Colour p becomes the mean of its sum, where pixels were counted.
pub fn mean_at(pal: &mut [f32], p: usize, gathered: &Gather)
    requires { Meaning pal.old (p + 1) gathered.now }
    ensures { pal.new ≡ mean_step gathered.now p pal.old }
{
    let m = gathered.cnts[p];
    if m == 0 {
        return;
    }
    let x = color::colour(&gathered.sums, p);
    color::put(pal, p, color::over(x, job::wide(m)));
}
