// The sheet reader's first pass: it tests a whole sheet and writes nothing, so that a refusal leaves all as it was.
// Each function answers what the format in crate sheet_format says. Assumes nothing.
#![tactic(auto)]

ghost use Rattle.std.specs.Prelude.{◌≡◌, ◌*◌, ◌≤◌, length, drop, ◌&&◌, ltb};
ghost use Rattle.bits.specs.Bits.{bits};
ghost use Rattle.sheet_format.specs.Sheet.{fault_of, header, read_sheet};
ghost use Rattle.sheet_format.specs.Proper.{Proper};
ghost use Rattle.sheet_check.specs.Steps.{head_of, checked_of};
ghost use Rattle.format.specs.Format.{clear};
ghost use Rattle.answer.specs.Refusals.{by_number, numbered_as};
ghost use Rattle.sheet_colours.specs.Steps.{number_of};

use answer::Refusal;
use sheet_colours::{Fault, Kind};
use sheet_format::Edition;

// The numbers at a sheet's head.
#[derive(Clone, Copy)]
pub struct Numbers {
    pub subs: u32,
    pub each: u32,
    pub tiles: u32,
    pub weight: u32,
}

// The opening, the edition, the sizes and the weight. Of the sizes none is at fault by itself.
pub fn head(e: Edition, s: &[u8]) -> Result<Numbers, Refusal>
    requires { length s.now ≤ 65536 }
    ensures { by_number result ≡ head_of ((header e).parse (bits s.now)) }
{
    let end = 8 * s.len();
    if end < 32 {
        return Err(Refusal::SheetBytes);
    }
    if bits::get(s, 0, 32) != sheet_format::OPENING {
        return Err(Refusal::SheetHead);
    }
    if end < sheet_format::SUBS_AT {
        return Err(Refusal::SheetBytes);
    }
    if bits::get(s, sheet_format::EDITION_AT, 4) != e.number {
        return Err(Refusal::SheetHead);
    }
    if end < sheet_format::HEAD_BITS {
        return Err(Refusal::SheetBytes);
    }
    let weight = bits::get(s, sheet_format::WEIGHT_AT, 32);
    if !format_pattern::is_weight(weight) {
        return Err(Refusal::Weight);
    }
    Ok(Numbers {
        subs: bits::get(s, sheet_format::SUBS_AT, 4) + 1,
        each: bits::get(s, sheet_format::EACH_AT, 4) + 1,
        tiles: bits::get(s, sheet_format::TILES_AT, 10) + 1,
        weight,
    })
}

// The refusal of a fault behind so many components: a bad component names the colour that it belongs to, and nothing else an entry.
fn fault_of(fault: Fault) -> Refusal
    ensures { numbered_as result ≡ fault_of (number_of fault.kind) fault.passed }
{
    match fault.kind {
        Kind::Bytes => Refusal::SheetBytes,
        Kind::Tiles => Refusal::Tiles,
        Kind::Counts => Refusal::Counts,
        Kind::Component => Refusal::Colour(fault.passed / 3),
    }
}

// A whole sheet. Nothing is written.
pub fn check(e: Edition, s: &[u8]) -> Result<Numbers, Refusal>
    requires { Proper e }
    ensures { by_number result ≡ checked_of (read_sheet e s.now) }
{
    if 65536 < s.len() {
        return Err(Refusal::SheetBytes);
    }
    let found = head(e, s)?;
    let n = (3 * (found.subs * found.each)) as usize;
    let t = found.tiles as usize;
    match sheet_tiles::palette_then_tiles(e, s, sheet_format::HEAD_BITS, n, t) {
        Err(fault) => Err(fault_of(fault)),
        Ok(at) => {
            if only_spare(s, at.bit) {
                Ok(found)
            } else {
                Err(Refusal::SheetBytes)
            }
        }
    }
}

// Whether what is left from bit p is less than a byte, and clear.
fn only_spare(s: &[u8], p: usize) -> bool
    requires { (length s.now ≤ 65536) × (p ≤ 8 * length s.now) }
    ensures { result ≡ (ltb (length (drop p (bits s.now))) 8 && clear (drop p (bits s.now))) }
{
    let left = 8 * s.len() - p;
    if left < 8 {
        bits::get(s, p, left) == 0
    } else {
        false
    }
}
