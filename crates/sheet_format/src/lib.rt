// The fit sheet as a format, in specs/: described once, over its edition, for its readers and its writer. Assumes nothing.
#![tactic(auto)]

ghost use Rattle.std.specs.Prelude.{◌≡◌, ◌*◌, ◌≤◌};
ghost use Rattle.sheet_format.specs.Sheet.{edition_of, size_of};
ghost use Rattle.sheet_format.specs.Proper.{Proper};
ghost use Rattle.sheet_format.specs.Opened.{size_in};

// What differs between editions: the number, the pixels of a tile, the bits of a tile's number of colours and of a count less one.
#[derive(Clone, Copy)]
pub struct Edition {
    pub number: u32,
    pub size: u32,
    pub many: usize,
    pub each: usize,
}

// The edition of a tile size that there is.
pub fn edition_of(size: usize) -> Edition
    ensures { result ≡ edition_of size }
{
    if size == job::LARGE_TILE {
        return Edition {
            number: 2,
            size: 256,
            many: 9,
            each: 8,
        };
    }
    Edition {
        number: 1,
        size: 64,
        many: 7,
        each: 6,
    }
}

// The tile size that a file asks for by its edition: what a program looks at first. Of a file that is no sheet it says nothing.
pub fn size_in(s: &[u8]) -> usize
    ensures { result ≡ size_in s.now }
{
    if s.len() < 5 {
        return job::SMALL_TILE;
    }
    if bits::get(s, EDITION_AT, 4) != 2 {
        return job::SMALL_TILE;
    }
    job::LARGE_TILE
}

// The first field, 54 46 49 54.
pub const OPENING: u32 = 0x5446_4954;

// The bits at which the edition, S, C, T and the weight begin, behind the opening; and the bits of the whole head.
pub const EDITION_AT: usize = 32;

pub const SUBS_AT: usize = 36;

pub const EACH_AT: usize = 40;

pub const TILES_AT: usize = 44;

pub const WEIGHT_AT: usize = 54;

pub const HEAD_BITS: usize = 86;

// The bits of a colour's three components.
pub const COLOUR_BITS: usize = 96;

// The bits of a sheet of s subpalettes of c colours, and t tiles of n colours in all.
pub fn size_of(e: Edition, s: usize, c: usize, t: usize, n: usize) -> usize
    requires { Proper e × (s * c ≤ 256) × (t ≤ 1024) × (n ≤ 16384) }
    ensures { result ≡ size_of e s c t n }
{
    HEAD_BITS + COLOUR_BITS * (s * c) + (e.many * t + (e.each + COLOUR_BITS) * n)
}
