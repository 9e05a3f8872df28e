// Grouping, from `extract` of the Rust: the kept pixels of a tile become entries, one for each colour, with a count of their pixels.
// What the first pass did not refuse, a second one fills into the room that the caller lends. The four lent slices go one by one: of a
// struct of `&mut` each function would have to ensure, field by field, that the same slice comes back, which is no plainer.
#![tactic(auto)]

ghost use Rattle.std.specs.Prelude.{◌≡◌, true, ◌*◌, ◌≤◌, ◌<◌, length};
ghost use Rattle.answer.specs.Outcome.{outcome};
ghost use Rattle.answer.specs.Refusals.{by_number};
ghost use Rattle.group_refusal.specs.Refusal.{entry_room, given_in, sized};
ghost use Rattle.group.specs.Turn.{seek, filled, turn, PixelRoom};
ghost use Rattle.group.specs.Entries.{fill_to};
ghost use Rattle.group.specs.Group.{grouping};

use answer::Refusal;
use group_pixels::{Pixels, Rgba};

// The first of n entries that has the bytes x, or n, the place where one begins. (So a number and no Option: the pixel is written there.)
fn position(n: usize, entry_bytes: &[u8], x: Rgba) -> usize
    requires { 4 * n ≤ length entry_bytes.now }
    ensures { result ≡ seek n entry_bytes.now x }
{
    for e in 0..n {
        if group_pixels::same_bytes(group_pixels::rgba_at(entry_bytes, e), x) {
            return e;
        }
    }
    n
}

// Pixel k joins the entry with its bytes, or begins one. The number of entries after it.
fn settle(
    k: usize,
    n: usize,
    q: &Pixels,
    entry_bytes: &mut [u8],
    entry_oklab: &mut [f32],
    entry_counts: &mut [u32],
    index: &mut [u32],
) -> usize
    requires { PixelRoom k n q.now.bytes.now q.now.oklab.now (entry_room entry_bytes.old entry_oklab.old entry_counts.old index.old) }
    ensures { filled result (entry_room entry_bytes.new entry_oklab.new entry_counts.new index.new)
        ≡ turn q.now.bytes.now q.now.oklab.now q.now.zero k (filled n (entry_room entry_bytes.old entry_oklab.old entry_counts.old index.old)) }
{
    let x = group_pixels::rgba_at(q.bytes, k);
    if !group_pixels::is_kept(q.zero, x) {
        return n;
    }
    let e = position(n, entry_bytes, x);
    index[k] = e as u32;
    if e < n {
        entry_counts[e] += 1;
        return n;
    }
    group_pixels::put_rgba(entry_bytes, n, x);
    color::put(entry_oklab, n, color::colour(q.oklab, k));
    entry_counts[n] = 1;
    n + 1
}

// On pixels that passed the first pass. The number of entries.
fn fill(
    q: &Pixels,
    entry_bytes: &mut [u8],
    entry_oklab: &mut [f32],
    entry_counts: &mut [u32],
    index: &mut [u32],
) -> usize
    requires { (q.now.p < 4294967296) × (sized (given_in q.now) (entry_room entry_bytes.old entry_oklab.old entry_counts.old index.old) ≡ true) }
    ensures { filled result (entry_room entry_bytes.new entry_oklab.new entry_counts.new index.new)
        ≡ fill_to (given_in q.now) q.now.p (entry_room entry_bytes.old entry_oklab.old entry_counts.old index.old) }
{
    let mut n = 0;
    for k in 0..q.p {
        n = settle(k, n, q, entry_bytes, entry_oklab, entry_counts, index);
    }
    n
}

// Groups the pixels of a tile of at most `size` into the lent room: for p pixels 4p bytes, 3p numbers, p counts, p indexes. Gives the number
// of entries written.
pub fn group(
    size: usize,
    q: &Pixels,
    entry_bytes: &mut [u8],
    entry_oklab: &mut [f32],
    entry_counts: &mut [u32],
    index: &mut [u32],
) -> Result<usize, Refusal>
    ensures { outcome (by_number result) (entry_room entry_bytes.new entry_oklab.new entry_counts.new index.new)
        ≡ grouping size (given_in q.now) (entry_room entry_bytes.old entry_oklab.old entry_counts.old index.old) }
{
    let checked = group_refusal::check_group(
        size,
        q,
        entry_bytes.len(),
        entry_oklab.len(),
        entry_counts.len(),
        index.len(),
    );
    checked?;
    Ok(fill(q, entry_bytes, entry_oklab, entry_counts, index))
}
