// A pixel of a tile: its four bytes and its Oklab. Which pixels are kept, in range, of the same bytes; pixels of flat slices, and which two clash.
#![tactic(auto)]

ghost use Rattle.std.specs.Prelude.{◌≡◌, true, ◌+◌, ◌*◌, ◌<◌, length};
ghost use Rattle.group_pixels.specs.Pixel.{is_zero, kept, same_bytes, in_gamut, rgba_at, same_bits, clash, put_rgba, There, Passed, Kept};

// A reduced colour: the four bytes of a pixel.
#[derive(Clone, Copy, Debug, PartialEq, Eq)]
pub struct Rgba {
    pub r: u8,
    pub g: u8,
    pub b: u8,
    pub a: u8,
}

// Colour zero.
#[derive(Clone, Copy, Debug, PartialEq, Eq)]
pub struct Rgb {
    pub r: u8,
    pub g: u8,
    pub b: u8,
}

// The p pixels of a tile, as they are lent: four bytes and three numbers of Oklab each; and colour zero, where there is one.
#[derive(Clone, Copy)]
pub struct Pixels<'a> {
    pub p: usize,
    pub bytes: &'a [u8],
    pub oklab: &'a [f32],
    pub zero: Option<Rgb>,
}

#[tactic(auto, unfolding(crate::specs::Pixel::is_zero))]
pub fn is_zero(zero: Option<Rgb>, x: Rgba) -> bool
    ensures { result ≡ is_zero zero x }
{
    match zero {
        Some(z) => {
            z == Rgb {
                r: x.r,
                g: x.g,
                b: x.b,
            }
        }
        None => false,
    }
}

// Whether a pixel is kept: it is not transparent, and not colour zero.
#[tactic(auto, unfolding(crate::specs::Pixel::kept))]
pub fn is_kept(zero: Option<Rgb>, x: Rgba) -> bool
    ensures { result ≡ kept zero x }
{
    x.a != 0 && !is_zero(zero, x)
}

#[tactic(auto, unfolding(crate::specs::Pixel::same_bytes))]
pub fn same_bytes(x: Rgba, y: Rgba) -> bool
    ensures { result ≡ same_bytes x y }
{
    x == y
}

#[tactic(auto, unfolding(crate::specs::Pixel::in_gamut))]
pub fn in_gamut(x: color::Oklab) -> bool
    ensures { result ≡ in_gamut x }
{
    job::is_within(x.l, job::MOST_COMPONENT)
        && job::is_within(x.a, job::MOST_COMPONENT)
        && job::is_within(x.b, job::MOST_COMPONENT)
}

pub fn rgba_at(s: &[u8], i: usize) -> Rgba
    requires { 4 * i + 3 < length s.now }
    ensures { result ≡ rgba_at s.now i }
{
    let j = 4 * i;
    Rgba {
        r: s[j],
        g: s[j + 1],
        b: s[j + 2],
        a: s[j + 3],
    }
}

pub fn put_rgba(s: &mut [u8], i: usize, x: Rgba)
    requires { 4 * i + 3 < length s.old }
    ensures { s.new ≡ put_rgba s.old i x }
{
    let j = 4 * i;
    s[j] = x.r;
    s[j + 1] = x.g;
    s[j + 2] = x.b;
    s[j + 3] = x.a;
}

// Whether two colours have the same bits, so that -0 and 0 differ.
#[tactic(auto, using(crate::proofs::Told::l_real, crate::proofs::Told::a_real, crate::proofs::Told::b_real), unfolding(crate::specs::Pixel::same_bits))]
pub fn same_bits(x: color::Oklab, y: color::Oklab) -> bool
    requires { (in_gamut x ≡ true) × (in_gamut y ≡ true) }
    ensures { result ≡ same_bits x y }
{
    f32::to_bits(x.l) == f32::to_bits(y.l)
        && f32::to_bits(x.a) == f32::to_bits(y.a)
        && f32::to_bits(x.b) == f32::to_bits(y.b)
}

// Whether pixels i and k are alike in bytes and differ in Oklab.
#[tactic(auto, unfolding(crate::specs::Pixel::clash))]
pub fn clash(q: &Pixels, i: usize, k: usize) -> bool
    requires { There q.now.bytes.now q.now.oklab.now i × Passed q.now.bytes.now q.now.oklab.now q.now.zero i × Kept q.now.bytes.now q.now.oklab.now q.now.zero k }
    ensures { result ≡ clash q.now.bytes.now q.now.oklab.now i k }
{
    same_bytes(rgba_at(q.bytes, i), rgba_at(q.bytes, k))
        && !same_bits(color::colour(q.oklab, i), color::colour(q.oklab, k))
}
