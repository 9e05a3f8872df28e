// The sheet writer's fields, in the format's order: of a job that passed its checks, into bytes that have room. Assumes nothing.
#![tactic(auto)]

ghost use Rattle.std.specs.Prelude.{◌≡◌, ◌+◌, ◌*◌, ◌≤◌, ◌<◌, length};
ghost use Rattle.std.proofs.lemmas.List.Edits.{sets};
ghost use Rattle.bits.specs.Bits.{bits};
ghost use Rattle.color.specs.Color.{Bounded};
ghost use Rattle.job.specs.Job.{job_in};
ghost use Rattle.job.specs.Gives.{Ready};
ghost use Rattle.sheet_format.specs.Sheet.{head_size, entry_size, tiles_size};
ghost use Rattle.sheet_format.specs.Proper.{Proper};
ghost use Rattle.sheet_format.specs.Lists.{patterns};
ghost use Rattle.sheet_pack.specs.Packed.{words, colours_bits, tile_bits, tiles_bits, head_bits, colours_of, tiles_from, Counted};

use job::Job;
use sheet_format::Edition;

// Components as fields from bit p.
pub fn pack_components(dst: &mut [u8], p: usize, src: &[f32])
    requires { (p + 32 * length src.now ≤ 8 * length dst.old) × (p + 32 * length src.now ≤ 524288) × Bounded src.now 2 }
    ensures { bits dst.new ≡ sets (bits dst.old) p (words (patterns src.now)) }
{
    let mut q = p;
    for x in src {
        bits::put(dst, q, 32, x.to_bits());
        q += 32;
    }
}

// A tile's colours, each with its count, as fields from bit p.
pub fn pack_colours(e: Edition, dst: &mut [u8], p: usize, counts: &[u32], colours: &[f32])
    requires { Proper e × (p + entry_size e * length counts.now ≤ 8 * length dst.old) × (p + entry_size e * length counts.now ≤ 524288) × (length colours.now ≡ 3 * length counts.now) × Counted counts.now × Bounded colours.now 2 }
    ensures { bits dst.new ≡ sets (bits dst.old) p (colours_bits e (colours_of counts.now colours.now)) }
{
    let mut q = p;
    for i in 0..counts.len() {
        let at = 3 * i;
        bits::put(dst, q, e.each, counts[i] - 1);
        pack_components(dst, q + e.each, &colours[at..at + 3]);
        q += e.each + sheet_format::COLOUR_BITS;
    }
}

// A tile from bit p: its number of colours, then those.
pub fn pack_tile(e: Edition, dst: &mut [u8], p: usize, counts: &[u32], colours: &[f32])
    requires { Proper e × (p + (e.many + entry_size e * length counts.now) ≤ 8 * length dst.old) × (p + (e.many + entry_size e * length counts.now) ≤ 524288) × (length colours.now ≡ 3 * length counts.now) × Counted counts.now × Bounded colours.now 2 }
    ensures { bits dst.new ≡ sets (bits dst.old) p (tile_bits e (colours_of counts.now colours.now)) }
{
    bits::put(dst, p, e.many, counts.len() as u32);
    pack_colours(e, dst, p + e.many, counts, colours);
}

// The tiles of a job from bit p.
pub fn pack_tiles(e: Edition, dst: &mut [u8], p: usize, job: &Job)
    requires { Proper e × (p + tiles_size e job.now.sizes.t (length job.now.counts.now) ≤ 8 * length dst.old) × (p + tiles_size e job.now.sizes.t (length job.now.counts.now) ≤ 524288) × Ready (job_in job.now) }
    ensures { bits dst.new ≡ sets (bits dst.old) p (tiles_bits e (tiles_from job.now.tiles.now job.now.colours.now job.now.counts.now 0 job.now.sizes.t)) }
{
    let mut q = p;
    for i in 0..job.sizes.t {
        let part = job.counts_part(i);
        pack_tile(e, dst, q, part, job.tile_part(i));
        q += e.many + (e.each + sheet_format::COLOUR_BITS) * part.len();
    }
}

// Opening, edition, sizes and weight.
pub fn pack_head(e: Edition, dst: &mut [u8], s: usize, c: usize, t: usize, w: u32)
    requires { (head_size ≤ 8 * length dst.old) × (0 < s) × (s ≤ 16) × (0 < c) × (c ≤ 16) × (0 < t) × (t ≤ 1024) }
    ensures { bits dst.new ≡ sets (bits dst.old) 0 (head_bits e s c t w) }
{
    bits::put(dst, 0, 32, sheet_format::OPENING);
    bits::put(dst, sheet_format::EDITION_AT, 4, e.number);
    bits::put(dst, sheet_format::SUBS_AT, 4, (s - 1) as u32);
    bits::put(dst, sheet_format::EACH_AT, 4, (c - 1) as u32);
    bits::put(dst, sheet_format::TILES_AT, 10, (t - 1) as u32);
    bits::put(dst, sheet_format::WEIGHT_AT, 32, w);
}
