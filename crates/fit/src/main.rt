// `fit`: the fits of a sheet's tiles. It reads a sheet from standard input and prints the lines that `fit_text` gives for it.
// One byte past the largest sheet is enough to know that a sheet is too large. Assumes nothing.
#![tactic(auto)]

ghost use Rattle.std.specs.Prelude.{◌≡◌, length};
ghost use Rattle.fit_text.specs.Fit.{most_text};

use std::io;

// Room for the largest sheet and one byte more. The contract gives only the length.
fn sheet_room() -> [u8; 65537]
    ensures { 65537 ≡ length result }
{
    sheet_parts::room(0)
}

// Room for the lines of any sheet.
fn text_room() -> [u8; fit_text::MOST_TEXT]
    ensures { most_text ≡ length result }
{
    sheet_parts::room(0)
}

fn main(rt: HostRuntime) -> io::Result<()> {
    let mut sheet = sheet_room();
    let n = whole_input::read_full(&mut rt.stdin(), &mut sheet)?;
    let mut out = text_room();
    let k = fit_text::fit(&sheet[..n], &mut out);
    rt.write_all(&out[..k])
}
