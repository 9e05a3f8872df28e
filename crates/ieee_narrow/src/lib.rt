// An f64 to the nearest f32, the Rust's `as f32`: the library's function, whose definition is that of ieee's specs/Narrow.antt.
#![tactic(auto)]

ghost use Rattle.std.specs.Prelude.{◌≡◌, not, T};
ghost use Rattle.std.specs.Float.Ieee.{is_nan};
ghost use Rattle.ieee.specs.Narrow.{narrow_of};

// `x as f32`: ties to even, gradual underflow, overflow to infinity.
#[tactic(auto, using(crate::proofs::Rounded::narrow_is))]
pub fn narrow(x: f64) -> f32
    requires { T (not (is_nan x)) }
    ensures { result ≡ narrow_of x }
{
    std::num::nearest_f64_to_f32(x)
}
