// Room for the fit sheet: whether lent slices hold the lists of any sheet, and whether a file has its place.
#![tactic(auto)]

ghost use Rattle.std.specs.Prelude.{◌≡◌};
ghost use Rattle.answer.specs.Refusals.{refusal_of};
ghost use Rattle.sheet_room.specs.Room.{roomy, place_for};

use answer::Refusal;

const MOST_BYTES: usize = 65536;

// Whether slices of these lengths hold the lists of any sheet.
#[tactic(auto, unfolding(crate::specs::Room::roomy))]
pub fn has_room(tiles: usize, colours: usize, counts: usize, palette: usize) -> bool
    ensures { result ≡ roomy tiles colours counts palette }
{
    768 <= palette && 2048 <= tiles && 5140 <= counts && 15420 <= colours
}

// Nothing where n bytes fit into as many as are lent, or the refusal: 13 where they are too many for any sheet, 3 for room.
#[tactic(auto, unfolding(crate::specs::Room::place_for))]
pub fn place_for(n: usize, lent: usize) -> Result<(), Refusal>
    ensures { refusal_of result ≡ place_for n lent }
{
    if MOST_BYTES < n {
        return Err(Refusal::SheetBytes);
    }
    if lent < n {
        return Err(Refusal::Lengths);
    }
    Ok(())
}
