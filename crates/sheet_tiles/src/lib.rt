// The parts of a sheet behind its head, tested bit by bit: tiles, and the palette before them. Nothing is written.
// Each function answers what the format in crate sheet_format says. Assumes nothing.
#![tactic(auto)]

ghost use Rattle.std.specs.Prelude.{◌≡◌, ◌*◌, ◌≤◌, length};
ghost use Rattle.format.specs.Format.{times};
ghost use Rattle.sheet_format.specs.Sheet.{tile, rest};
ghost use Rattle.sheet_format.specs.Proper.{Proper};
ghost use Rattle.sheet_colours.specs.Steps.{numbered, step_at};

use sheet_colours::{At, Fault, Kind};
use sheet_format::Edition;

fn one_tile(e: Edition, s: &[u8], p: usize) -> Result<At, Fault>
    requires { Proper e × (length s.now ≤ 65536) × (p ≤ 8 * length s.now) }
    ensures { numbered result ≡ step_at (tile e) s.now p }
{
    let end = 8 * s.len();
    if end - p < e.many {
        return sheet_colours::stopped(Kind::Bytes, 0);
    }
    let n = bits::get(s, p, e.many);
    if e.size < n {
        return sheet_colours::stopped(Kind::Tiles, 0);
    }
    sheet_colours::tile_colours(e, s, p + e.many, n as usize)
}

fn all_tiles(e: Edition, s: &[u8], p: usize, t: usize) -> Result<At, Fault>
    requires { Proper e × (length s.now ≤ 65536) × (p ≤ 8 * length s.now) }
    ensures { numbered result ≡ step_at (times t (tile e)) s.now p }
{
    let mut at = At { bit: p, passed: 0 };
    for _i in 0..t {
        at = sheet_colours::behind(at.passed, one_tile(e, s, at.bit))?;
    }
    Ok(at)
}

// The palette's n components from bit p, then t tiles, whose components come after the palette's.
pub fn palette_then_tiles(e: Edition, s: &[u8], p: usize, n: usize, t: usize) -> Result<At, Fault>
    requires { Proper e × (length s.now ≤ 65536) × (p ≤ 8 * length s.now) }
    ensures { numbered result ≡ step_at (rest e n t) s.now p }
{
    let palette = sheet_colours::components(s, p, n)?;
    sheet_colours::behind(palette.passed, all_tiles(e, s, palette.bit, t))
}
