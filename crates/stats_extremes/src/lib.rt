// Selection helpers: the greatest and the least by IEEE 754's total order of f32, as specs/Extremes.antt says.
// No value may be a NaN: it is placed by its bits, which the language keeps to itself.
#![tactic(auto)]

ghost use Rattle.std.specs.Prelude.{◌≡◌, cond, not, T, length};
ghost use Rattle.std.specs.Float.{binary32};
ghost use Rattle.std.specs.Float.Ieee.{is_nan, to_bits};
ghost use Rattle.ieee.specs.Terms.{key_of};
ghost use Rattle.stats.specs.Stats.{value_at};
ghost use Rattle.stats_extremes.specs.Extremes.{NoNan, argmax_of, argmin_of};

// The weight of the sign.
const SIGN_32: u32 = 0x8000_0000;

// A number that grows with IEEE 754's total order.
pub fn total_key(x: f32) -> u32
    requires { T (not (is_nan x)) }
    ensures { result ≡ key_of binary32 (to_bits binary32 x) }
{
    let bits = f32::to_bits(x);
    if bits < SIGN_32 {
        bits + SIGN_32
    } else {
        0xffff_ffff - bits
    }
}

// Where `greatest` is true the last of the greatest, else the first of the least; 0 where there is none.
fn extreme(values: &[f32], greatest: bool) -> usize
    requires { NoNan (value_at values.now) (length values.now) }
    ensures { result ≡ cond greatest (argmax_of (value_at values.now) (length values.now)) (argmin_of (value_at values.now) (length values.now)) }
{
    let mut best = 0;
    for (i, x) in values.iter().enumerate() {
        let rises = values[best].total_cmp(x).is_le();
        if rises == greatest {
            best = i;
        }
    }
    best
}

// The last of the greatest, 0 where there is none.
pub fn argmax(values: &[f32]) -> usize
    requires { NoNan (value_at values.now) (length values.now) }
    ensures { result ≡ argmax_of (value_at values.now) (length values.now) }
{
    extreme(values, true)
}

// The first of the least, 0 where there is none.
pub fn argmin(values: &[f32]) -> usize
    requires { NoNan (value_at values.now) (length values.now) }
    ensures { result ≡ argmin_of (value_at values.now) (length values.now) }
{
    extreme(values, false)
}
