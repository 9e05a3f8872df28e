// What `train` takes beside a run: colours cut to -2..2. Assumes nothing.
#![tactic(auto)]

ghost use Rattle.std.specs.Prelude.{◌≡◌, ◌≤◌, length, take};
ghost use Rattle.train_run.specs.Training.{cut_one, cut};

fn cut_one(x: f32) -> f32
    ensures { result ≡ cut_one x }
{
    x.clamp(-job::MOST_COMPONENT, job::MOST_COMPONENT)
}

// Each component, cut to -2..2. What stands behind them is not said.
pub fn cut(from: &[f32]) -> [f32; 768]
    requires { length from.now ≤ 768 }
    ensures { (768 ≡ length result) × (take (length from.now) result ≡ cut from.now) }
{
    let mut to: [f32; 768] = sheet_parts::room(0.0);
    for (i, x) in from.iter().enumerate() {
        to[i] = cut_one(*x);
    }
    to
}
