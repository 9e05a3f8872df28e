// Forwarders to `palette_edit`. Assumes of callers what each callee requires.
ghost use Rattle.std.specs.Prelude.{◌+◌, ◌*◌, ◌≤◌, ◌<◌, length};

use color::Oklab;

#[unsafe(no_mangle)]
pub extern "C" fn probe_nudge(pal: &mut [f32], place: usize, l: f32, a: f32, b: f32, alpha: f32)
    requires { 3 * place + 2 < length pal.old }
{
    palette_edit::nudge(pal, place, Oklab { l, a, b }, alpha)
}

#[unsafe(no_mangle)]
pub extern "C" fn probe_copy_color(pal: &mut [f32], c: usize, i: usize, from: usize, to: usize)
    requires { (3 * (i * c + from) + 2 < length pal.old) × (3 * (i * c + to) + 2 < length pal.old) }
{
    palette_edit::copy_color(pal, c, i, from, to)
}

#[unsafe(no_mangle)]
pub extern "C" fn probe_duplicate_color(
    pal: &mut [f32],
    c: usize,
    have: usize,
    i: usize,
    from: usize,
)
    requires { (3 * (i * c + from) + 2 < length pal.old) × (3 * (i * c + have) + 2 < length pal.old) }
{
    palette_edit::duplicate_color(pal, c, have, i, from)
}

#[unsafe(no_mangle)]
pub extern "C" fn probe_copy_subpalette(
    pal: &mut [f32],
    c: usize,
    have: usize,
    from: usize,
    to: usize,
)
    requires { (have ≤ c) × ((from * (3 * c) + 3 * c ≤ length pal.old) × (to * (3 * c) + 3 * c ≤ length pal.old)) }
{
    palette_edit::copy_subpalette(pal, c, have, from, to)
}

#[unsafe(no_mangle)]
pub extern "C" fn probe_duplicate_palette(
    pal: &mut [f32],
    c: usize,
    have: usize,
    n: usize,
    from: usize,
)
    requires { (have ≤ c) × ((from * (3 * c) + 3 * c ≤ length pal.old) × (n * (3 * c) + 3 * c ≤ length pal.old)) }
{
    palette_edit::duplicate_palette(pal, c, have, n, from)
}
