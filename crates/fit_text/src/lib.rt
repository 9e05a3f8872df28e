// What `fit` prints for a sheet: a refusal's line, or those of the job that it holds. Hints start at 0.
// Assumes nothing.
#![tactic(auto)]

ghost use Rattle.std.specs.Prelude.{◌≡◌, ◌≤◌, length};
ghost use Rattle.answer.specs.Outcome.{outcome};
ghost use Rattle.io.specs.Counts.{IsPrefixLen};
ghost use Rattle.fit_lines.specs.Lines.{Stored};
ghost use Rattle.fit_tiles.specs.Text.{fit_text, most_text};
ghost use Rattle.sheet_parts.specs.Front.{front_job, front_palette, Front};
ghost use Rattle.fit_text.specs.Fit.{fit_def};

use job::Sizes;

// The bytes that any sheet's lines take, at most.
pub const MOST_TEXT: usize = 44311;

// The lines of the job in the first places of these slices.
fn put_job(
    z: Sizes,
    tiles: &[u32],
    colours: &[f32],
    counts: &[u32],
    palette: &[f32],
    out: &mut [u8],
) -> usize
    requires { Front z tiles.now colours.now counts.now palette.now × (most_text ≤ length out.old) }
    ensures { Stored out.old out.new 0 result
        (fit_text (front_job z tiles.now colours.now counts.now) (front_palette z palette.now))
        × (result ≤ most_text) }
{
    let mut hints: [u32; 1024] = sheet_parts::room(0);
    let job = sheet_parts::front_job(z, tiles, colours, counts);
    let given = &palette[..3 * (z.s * z.c)];
    fit_tiles::put_fit(&job, given, &mut hints[..z.t], out)
}

// What `fit` prints for these bytes, into `out`, and how many bytes that is: none where `out` has too little room for any sheet.
// (A count and no Option: a call that could not fail still cannot.)
pub fn fit(bytes: &[u8], out: &mut [u8]) -> usize
    ensures { (outcome result out.new ≡ fit_def bytes.now out.old) × IsPrefixLen result out.new }
{
    if out.len() < MOST_TEXT {
        return 0;
    }
    let size = sheet_format::size_in(bytes);
    let mut tiles: [u32; 2048] = sheet_parts::room(0);
    let mut colours: [f32; 15420] = sheet_parts::room(0.0);
    let mut counts: [u32; 5140] = sheet_parts::room(0);
    let mut palette: [f32; 768] = sheet_parts::room(0.0);
    match sheet::read(
        size,
        bytes,
        &mut tiles,
        &mut colours,
        &mut counts,
        &mut palette,
    ) {
        Err(e) => fit_lines::put_refused(out, 0, e.number()),
        Ok(z) => put_job(z, &tiles, &colours, &counts, &palette, out),
    }
}
