// Forwarders to stats, extremes and narrow. Assumes of callers what each callee requires.
ghost use Rattle.std.specs.Prelude.{not, T, length};
ghost use Rattle.std.specs.Float.Ieee.{is_nan};
ghost use Rattle.stats.specs.Stats.{value_at};
ghost use Rattle.stats_extremes.specs.Extremes.{NoNan};

use stats::Two;

#[unsafe(no_mangle)]
pub extern "C" fn probe_narrow(x: f64) -> f32
    requires { T (not (is_nan x)) }
{
    ieee_narrow::narrow(x)
}

// One value more, d at index i: `dist`, `next` and `second` hold the least two so far, then those with it.
#[unsafe(no_mangle)]
pub extern "C" fn probe_smallest_two(
    index: usize,
    dist: &mut f32,
    next: &mut usize,
    second: &mut f32,
    i: usize,
    d: f32,
) -> usize {
    let so_far = Two {
        index,
        dist: *dist,
        next: *next,
        second: *second,
    };
    let two = stats::smallest_two(so_far, i, d);
    *dist = two.dist;
    *next = two.next;
    *second = two.second;
    two.index
}

// The next of n values, where the walk over them left these.
#[unsafe(no_mangle)]
pub extern "C" fn probe_with_other(
    index: usize,
    dist: f32,
    next: usize,
    second: f32,
    n: usize,
) -> usize {
    let two = stats::with_other(
        Two {
            index,
            dist,
            next,
            second,
        },
        n,
    );
    two.next
}

#[unsafe(no_mangle)]
pub extern "C" fn probe_argmax(values: &[f32]) -> usize
    requires { NoNan (value_at values.now) (length values.now) }
{
    stats_extremes::argmax(values)
}

#[unsafe(no_mangle)]
pub extern "C" fn probe_argmin(values: &[f32]) -> usize
    requires { NoNan (value_at values.now) (length values.now) }
{
    stats_extremes::argmin(values)
}
