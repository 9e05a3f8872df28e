// The sheet reader's second pass: it fills lent slices from a sheet that the first pass accepted, so every field is known to be sound.
// Assumes nothing.
#![tactic(auto)]

ghost use Rattle.std.specs.Prelude.{◌≡◌, ◌+◌, ◌*◌, ◌≤◌, length};
ghost use Rattle.std.proofs.lemmas.List.Edits.{sets};
ghost use Rattle.format.specs.Format.{times};
ghost use Rattle.sheet_format.specs.Sheet.{component, colours, tile};
ghost use Rattle.sheet_format.specs.Proper.{Proper};
ghost use Rattle.sheet_format.specs.Lists.{floats, tile_counts, tile_floats, all_counts, all_floats, table_of, total};
ghost use Rattle.sheet_fill.specs.Fill.{Reads, list_at};

use sheet_format::Edition;

// The n components from bit p into dst from place at.
pub fn fill_components(s: &[u8], p: usize, n: usize, dst: &mut [f32], at: usize)
    requires { (length s.now ≤ 65536) × (at + n ≤ length dst.old) × Reads (times n component) s.now p }
    ensures { dst.new ≡ sets dst.old at (floats (list_at (times n component) s.now p)) }
{
    let mut q = p;
    for i in 0..n {
        let k = at + i;
        dst[k] = format_pattern::component(bits::get(s, q, 32));
        q += 32;
    }
}

// The n colours of a tile from bit p into the places from k.
pub fn fill_colours(
    e: Edition,
    s: &[u8],
    p: usize,
    n: usize,
    counts: &mut [u32],
    parts: &mut [f32],
    k: usize,
)
    requires { Proper e × (length s.now ≤ 65536) × (k + n ≤ length counts.old) × (3 * (k + n) ≤ length parts.old) × Reads (colours e n 0) s.now p }
    ensures { (counts.new ≡ sets counts.old k (tile_counts (list_at (colours e n 0) s.now p)))
        × (parts.new ≡ sets parts.old (3 * k) (tile_floats (list_at (colours e n 0) s.now p))) }
{
    let mut q = p;
    for i in 0..n {
        let j = k + i;
        counts[j] = bits::get(s, q, e.each) + 1;
        fill_components(s, q + e.each, 3, parts, 3 * j);
        q += e.each + sheet_format::COLOUR_BITS;
    }
}

// The t tiles from bit p into the table, the counts and the colours.
pub fn fill_tiles(
    e: Edition,
    s: &[u8],
    p: usize,
    t: usize,
    table: &mut [u32],
    counts: &mut [u32],
    parts: &mut [f32],
)
    requires { Proper e × (length s.now ≤ 65536) × (2 * t ≤ length table.old) × (total (list_at (times t (tile e)) s.now p) ≤ length counts.old)
        × (3 * total (list_at (times t (tile e)) s.now p) ≤ length parts.old) × (total (list_at (times t (tile e)) s.now p) ≤ 65536)
        × Reads (times t (tile e)) s.now p }
    ensures { (table.new ≡ sets table.old 0 (table_of 0 (list_at (times t (tile e)) s.now p)))
        × (counts.new ≡ sets counts.old 0 (all_counts (list_at (times t (tile e)) s.now p)))
        × (parts.new ≡ sets parts.old 0 (all_floats (list_at (times t (tile e)) s.now p))) }
{
    let mut q = p;
    let mut k = 0;
    for i in 0..t {
        let n = bits::get(s, q, e.many) as usize;
        let j = 2 * i;
        table[j] = k as u32;
        table[j + 1] = n as u32;
        fill_colours(e, s, q + e.many, n, counts, parts, k);
        q += e.many + (e.each + sheet_format::COLOUR_BITS) * n;
        k += n;
    }
}
