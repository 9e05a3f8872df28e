// Room of any type and length, the job that a reading leaves in its first places, and the sheet of a job that can be written. What a
// program prints for the bytes of a sheet is defined in specs/, with its laws in proofs/. Assumes nothing.
#![tactic(auto)]

ghost use Rattle.std.specs.Prelude.{◌≡◌, ℕ, ◌*◌, ◌≤◌, length, get_or};
ghost use Rattle.job.specs.Job.{job_in};
ghost use Rattle.sheet.specs.Sheets.{file_of};
ghost use Rattle.fit_lines.specs.Lines.{Stored};
ghost use Rattle.sheet_parts.specs.Front.{Writable, colours_to, front_job};

use job::{Job, Sizes};

// N places that hold `blank`. The contract gives their number and what each holds, and not the list: callers need no more of room for any sheet.
pub fn room<T: Copy, const N: usize>(blank: T) -> [T; N]
    ensures { (N ≡ length result) × ((k : ℕ) → get_or result k blank ≡ blank) }
{
    [blank; N]
}

// How many colours the first t tiles have.
pub fn colours_to(tiles: &[u32], t: usize) -> usize
    requires { (1 ≤ t) × (2 * t ≤ length tiles.now) × (colours_to tiles.now t ≤ 16384) }
    ensures { result ≡ colours_to tiles.now t }
{
    let last = t - 1;
    job::first_of(tiles, last) + job::size_of(tiles, last)
}

// The job in the first places of these slices, which are long enough.
pub fn front_job<'a>(z: Sizes, tiles: &'a [u32], colours: &'a [f32], counts: &'a [u32]) -> Job<'a>
    requires { (1 ≤ z.t) × (2 * z.t ≤ length tiles.now) × (colours_to tiles.now z.t ≤ 16384)
        × (3 * colours_to tiles.now z.t ≤ length colours.now) × (colours_to tiles.now z.t ≤ length counts.now) }
    ensures { (job_in result ≡ front_job z tiles.now colours.now counts.now) × (result.sizes ≡ z) }
{
    let n = colours_to(tiles, z.t);
    Job {
        sizes: z,
        tiles: &tiles[..2 * z.t],
        colours: &colours[..3 * n],
        counts: &counts[..n],
    }
}

// The sheet of a job and a palette that can be written: the writer refuses none.
pub fn put_sheet(job: &Job, palette: &[f32], out: &mut [u8]) -> usize
    requires { Writable (job_in job.now) palette.now × (65536 ≤ length out.old) }
    ensures { Stored out.old out.new 0 result (file_of (job_in job.now) palette.now) × (result ≤ 65536) }
{
    sheet::write(job, palette, out).unwrap_or(0)
}
