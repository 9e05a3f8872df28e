// A forwarder to grouping. Assumes nothing.
use group_pixels::{Pixels, Rgb};

// Gives the number, in `entries` how many were written, and in `fault` the index of a refusal.
#[unsafe(no_mangle)]
pub extern "C" fn probe_group(
    size: usize,
    p: usize,
    pixels: &[u8],
    oklab: &[f32],
    given: bool,
    r: u8,
    g: u8,
    b: u8,
    entry_bytes: &mut [u8],
    entry_oklab: &mut [f32],
    entry_counts: &mut [u32],
    index: &mut [u32],
    entries: &mut usize,
    fault: &mut usize,
) -> u32 {
    let zero = if given { Some(Rgb { r, g, b }) } else { None };
    let q = Pixels {
        p,
        bytes: pixels,
        oklab,
        zero,
    };
    match group::group(size, &q, entry_bytes, entry_oklab, entry_counts, index) {
        Ok(n) => {
            *entries = n;
            0
        }
        Err(e) => {
            *fault = e.index();
            e.number()
        }
    }
}
