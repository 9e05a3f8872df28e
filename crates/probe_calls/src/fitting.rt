// Forwarders to the single fit and `best_two`. Assumes nothing.
// Each gives the number, and in `fault` the index of a refusal; what is found goes through the other references, which a refusal leaves.
use job::Job;

#[unsafe(no_mangle)]
pub extern "C" fn probe_single_fit(
    size: usize,
    s: usize,
    c: usize,
    t: usize,
    weight: f32,
    tiles: &[u32],
    colours: &[f32],
    counts: &[u32],
    palette: &[f32],
    hints: &mut [u32],
    index: &mut usize,
    dist: &mut f32,
    fault: &mut usize,
) -> u32 {
    let sizes = job::sizes_of(size, s, c, t, 0, weight);
    let job = Job {
        sizes,
        tiles,
        colours,
        counts,
    };
    match fits::single_fit(&job, palette, hints) {
        Ok(near) => {
            *index = near.index;
            *dist = near.dist;
            0
        }
        Err(e) => {
            *fault = e.index();
            e.number()
        }
    }
}

#[unsafe(no_mangle)]
pub extern "C" fn probe_public_best_two(
    size: usize,
    s: usize,
    c: usize,
    t: usize,
    weight: f32,
    tiles: &[u32],
    colours: &[f32],
    counts: &[u32],
    palette: &[f32],
    hints: &mut [u32],
    index: &mut usize,
    dist: &mut f32,
    next: &mut usize,
    second: &mut f32,
    fault: &mut usize,
) -> u32 {
    let sizes = job::sizes_of(size, s, c, t, 0, weight);
    let job = Job {
        sizes,
        tiles,
        colours,
        counts,
    };
    match fits_two::best_two(&job, palette, hints) {
        Ok(two) => {
            *index = two.index;
            *dist = two.dist;
            *next = two.next;
            *second = two.second;
            0
        }
        Err(e) => {
            *fault = e.index();
            e.number()
        }
    }
}
