// The first pass of grouping, over shared slices and the lengths of lent ones: what is refused. So a refusal writes nothing.
// A pixel's fault is an Oklab out of range, or another one than an earlier pixel's of the same bytes.
#![tactic(auto)]

ghost use Rattle.std.specs.Prelude.{◌≡◌, ◌*◌, ◌<◌, length};
ghost use Rattle.answer.specs.Refusals.{refusal_of};
ghost use Rattle.group_pixels.specs.Pixel.{There, Kept};
ghost use Rattle.group_refusal.specs.Faults.{clashes, fault, first_of, Real};
ghost use Rattle.group_refusal.specs.Refusal.{given_in, lengths_fit, refusal_where};

use answer::Refusal;
use group_pixels::Pixels;

// Whether kept pixel k clashes with one before it.
fn clashes(q: &Pixels, k: usize) -> bool
    requires { Real q.now.bytes.now q.now.oklab.now q.now.zero k × Kept q.now.bytes.now q.now.oklab.now q.now.zero k }
    ensures { result ≡ clashes q.now.bytes.now q.now.oklab.now k }
{
    for i in 0..k {
        if group_pixels::clash(q, i, k) {
            return true;
        }
    }
    false
}

// What is wrong with pixel k: its Oklab, or an earlier pixel's.
#[tactic(auto, unfolding(crate::specs::Faults::fault))]
fn check_pixel(q: &Pixels, k: usize) -> Result<(), Refusal>
    requires { There q.now.bytes.now q.now.oklab.now k × Real q.now.bytes.now q.now.oklab.now q.now.zero k }
    ensures { refusal_of result ≡ fault q.now.bytes.now q.now.oklab.now q.now.zero k }
{
    if !group_pixels::is_kept(q.zero, group_pixels::rgba_at(q.bytes, k)) {
        return Ok(());
    }
    if !group_pixels::in_gamut(color::colour(q.oklab, k)) {
        return Err(Refusal::Colour(k));
    }
    if clashes(q, k) {
        return Err(Refusal::SameColour);
    }
    Ok(())
}

// The fault of the first pixel that has one.
pub fn check_pixels(q: &Pixels) -> Result<(), Refusal>
    requires { (length q.now.bytes.now ≡ 4 * q.now.p) × (length q.now.oklab.now ≡ 3 * q.now.p) }
    ensures { refusal_of result ≡ first_of (fault q.now.bytes.now q.now.oklab.now q.now.zero) 0 q.now.p }
{
    for k in 0..q.p {
        check_pixel(q, k)?;
    }
    Ok(())
}

// Whether every slice has the length that p implies.
#[tactic(auto, unfolding(crate::specs::Refusal::lengths_fit))]
fn is_sized(
    p: usize,
    pixels: usize,
    oklab: usize,
    entry_bytes: usize,
    entry_oklab: usize,
    entry_counts: usize,
    index: usize,
) -> bool
    requires { p < 4294967296 }
    ensures { result ≡ lengths_fit p pixels oklab entry_bytes entry_oklab entry_counts index }
{
    if pixels != 4 * p || oklab != 3 * p {
        return false;
    }
    if entry_bytes != 4 * p || entry_oklab != 3 * p {
        return false;
    }
    entry_counts == p && index == p
}

// Whether these pixels can be grouped, in room of these lengths.
pub fn check_group(
    size: usize,
    q: &Pixels,
    entry_bytes: usize,
    entry_oklab: usize,
    entry_counts: usize,
    index: usize,
) -> Result<(), Refusal>
    ensures { refusal_of result ≡ refusal_where size (given_in q.now)
        (lengths_fit q.now.p (length q.now.bytes.now) (length q.now.oklab.now) entry_bytes entry_oklab entry_counts index) }
{
    if !job::is_tile_size(size) {
        return Err(Refusal::Sizes);
    }
    if q.p > size {
        return Err(Refusal::Sizes);
    }
    if !is_sized(
        q.p,
        q.bytes.len(),
        q.oklab.len(),
        entry_bytes,
        entry_oklab,
        entry_counts,
        index,
    ) {
        return Err(Refusal::Lengths);
    }
    check_pixels(q)
}
