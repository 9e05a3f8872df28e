// What `train` writes for a sheet: a refusal's line, or the sheet with the palette that its tiles train. Assumes nothing.
#![tactic(auto)]

use job::Sizes;

mod run;
mod trained;

ghost use Rattle.std.specs.Prelude.{◌≡◌, ◌≤◌, length};
ghost use Rattle.answer.specs.Outcome.{outcome};
ghost use Rattle.io.specs.Counts.{IsPrefixLen};
ghost use Rattle.fit_lines.specs.Lines.{Stored};
ghost use Rattle.sheet_parts.specs.Front.{front_job, Front};
ghost use Rattle.train_text.specs.Trained.{job_text};
ghost use Rattle.train_text.specs.Train.{train_def};

// The bytes that any sheet takes, at most.
const MOST_BYTES: usize = 65536;

// What is written for the job in the first places of these slices.
fn put_job(
    z: Sizes,
    tiles: &[u32],
    colours: &[f32],
    counts: &[u32],
    palette: &mut [f32],
    out: &mut [u8],
) -> usize
    requires { Front z tiles.now colours.now counts.now palette.old × (65536 ≤ length out.old) }
    ensures { Stored out.old out.new 0 result
        (job_text (front_job z tiles.now colours.now counts.now)) × (result ≤ 65536) }
{
    let job = sheet_parts::front_job(z, tiles, colours, counts);
    trained::put_trained(&job, &mut palette[..3 * (z.s * z.c)], out)
}

// What `train` writes for these bytes, into `out`, and how many bytes that is: none where `out` has too little room for any sheet.
// (A count and no Option: a call that could not fail still cannot.)
pub fn train(bytes: &[u8], out: &mut [u8]) -> usize
    ensures { (outcome result out.new ≡ train_def bytes.now out.old) × IsPrefixLen result out.new }
{
    if out.len() < MOST_BYTES {
        return 0;
    }
    let size = sheet_format::size_in(bytes);
    let mut tiles: [u32; 2048] = sheet_parts::room(0);
    let mut colours: [f32; 15420] = sheet_parts::room(0.0);
    let mut counts: [u32; 5140] = sheet_parts::room(0);
    let mut palette: [f32; 768] = sheet_parts::room(0.0);
    match sheet::read(
        size,
        bytes,
        &mut tiles,
        &mut colours,
        &mut counts,
        &mut palette,
    ) {
        Err(e) => fit_lines::put_refused(out, 0, e.number()),
        Ok(z) => put_job(z, &tiles, &colours, &counts, &mut palette, out),
    }
}
