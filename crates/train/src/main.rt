// `train`: a palette for a sheet's tiles. It reads a sheet from standard input and writes what `train_text` gives for it: the sheet with
// the trained palette, or a refusal's line. One byte past the largest sheet is enough to know that a sheet is too large. Assumes nothing.
#![tactic(auto)]

ghost use Rattle.std.specs.Prelude.{◌≡◌, length};

use std::io;

// Room for the largest sheet and one byte more. The contract gives only the length.
fn sheet_room() -> [u8; 65537]
    ensures { 65537 ≡ length result }
{
    sheet_parts::room(0)
}

// Room for the sheet written.
fn text_room() -> [u8; 65536]
    ensures { 65536 ≡ length result }
{
    sheet_parts::room(0)
}

fn main(rt: HostRuntime) -> io::Result<()> {
    let mut sheet = sheet_room();
    let n = whole_input::read_full(&mut rt.stdin(), &mut sheet)?;
    let mut out = text_room();
    let k = train_text::train(&sheet[..n], &mut out);
    rt.write_all(&out[..k])
}
