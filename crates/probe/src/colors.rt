// A forwarder to the distance of `color`. Asks nothing of callers.
use color::Oklab;

#[unsafe(no_mangle)]
pub extern "C" fn probe_sqdist(
    pl: f32,
    pa: f32,
    pb: f32,
    ql: f32,
    qa: f32,
    qb: f32,
    weight: f32,
) -> f32 {
    color::oklab_sqdist(
        Oklab {
            l: pl,
            a: pa,
            b: pb,
        },
        Oklab {
            l: ql,
            a: qa,
            b: qb,
        },
        weight,
    )
}
