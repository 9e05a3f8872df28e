// The fit sheet's public calls: the reader and the writer. Neither asks anything of its caller, and a refusal writes nothing.
// Assumes nothing.
#![tactic(auto)]

ghost use Rattle.std.specs.Prelude.{◌≡◌};
ghost use Rattle.job.specs.Job.{job_in};
ghost use Rattle.answer.specs.Outcome.{outcome};
ghost use Rattle.answer.specs.Refusals.{by_number};
ghost use Rattle.sheet.specs.Sheets.{room, read_def, write_def};

use answer::Refusal;
use job::{Job, Sizes};

// A sheet, of the edition that the tile size names, into lent slices: two numbers a tile, three a colour. What isn't filled stays.
pub fn read(
    size: usize,
    bytes: &[u8],
    tiles: &mut [u32],
    colours: &mut [f32],
    counts: &mut [u32],
    palette: &mut [f32],
) -> Result<Sizes, Refusal>
    ensures { outcome (by_number result) (room tiles.new colours.new counts.new palette.new)
        ≡ read_def size bytes.now (room tiles.old colours.old counts.old palette.old) }
{
    if !job::is_tile_size(size) {
        return Err(Refusal::Sizes);
    }
    if !sheet_room::has_room(tiles.len(), colours.len(), counts.len(), palette.len()) {
        return Err(Refusal::Lengths);
    }
    let e = sheet_format::edition_of(size);
    let found = sheet_check::check(e, bytes)?;
    let s = found.subs as usize;
    let c = found.each as usize;
    let t = found.tiles as usize;
    let n = 3 * (s * c);
    let p = sheet_format::HEAD_BITS + n * 32;
    sheet_fill::fill_components(bytes, sheet_format::HEAD_BITS, n, palette, 0);
    sheet_fill::fill_tiles(e, bytes, p, t, tiles, counts, colours);
    let weight = format_pattern::weight(found.weight);
    Ok(job::sizes_of(size, s, c, t, 0, weight))
}

// The sheet of a job and a palette, of the edition that the job's tile size names, into lent bytes. Those past it stay.
pub fn write(job: &Job, palette: &[f32], dst: &mut [u8]) -> Result<usize, Refusal>
    ensures { outcome (by_number result) dst.new
        ≡ write_def (job_in job.now) palette.now dst.old }
{
    job_check::check_job(job, palette, true)?;
    let z = job.sizes;
    let e = sheet_format::edition_of(z.size);
    let size = sheet_format::size_of(e, z.s, z.c, z.t, job.counts.len());
    let n = format::bytes_for(size);
    sheet_room::place_for(n, dst.len())?;
    sheet_whole::pack_sheet(e, job, palette, dst, size);
    Ok(n)
}
