// Forwarders to the sheet's reader and writer. Assumes nothing.
// Each gives the number, and in `fault` the index of a refusal; what else there is goes through the other references, which a refusal leaves.
use job::Job;

#[unsafe(no_mangle)]
pub extern "C" fn probe_sheet_read(
    size: usize,
    bytes: &[u8],
    tiles: &mut [u32],
    colours: &mut [f32],
    counts: &mut [u32],
    palette: &mut [f32],
    subs: &mut usize,
    each: &mut usize,
    many: &mut usize,
    heavy: &mut f32,
    fault: &mut usize,
) -> u32 {
    match sheet::read(size, bytes, tiles, colours, counts, palette) {
        Err(e) => {
            *fault = e.index();
            e.number()
        }
        Ok(z) => {
            *subs = z.s;
            *each = z.c;
            *many = z.t;
            *heavy = z.weight;
            0
        }
    }
}

#[unsafe(no_mangle)]
pub extern "C" fn probe_sheet_write(
    size: usize,
    s: usize,
    c: usize,
    t: usize,
    weight: f32,
    tiles: &[u32],
    colours: &[f32],
    counts: &[u32],
    palette: &[f32],
    dst: &mut [u8],
    written: &mut usize,
    fault: &mut usize,
) -> u32 {
    let sizes = job::sizes_of(size, s, c, t, 0, weight);
    let job = Job {
        sizes,
        tiles,
        colours,
        counts,
    };
    match sheet::write(&job, palette, dst) {
        Err(e) => {
            *fault = e.index();
            e.number()
        }
        Ok(n) => {
            *written = n;
            0
        }
    }
}
