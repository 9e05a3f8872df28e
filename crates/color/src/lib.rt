// Oklab colours: places of a flat slice of three numbers a colour, sums, products and quotients; the squared distance; a colour moved towards another.
// Each function gives what its definition in specs/ says, bit for bit.
#![tactic(auto)]

ghost use Rattle.std.specs.Prelude.{◌≡◌, ◌+◌, ◌*◌, ◌≤◌, ◌<◌, length};
ghost use Rattle.color.specs.Color.{colour_at, put_at, plus_of, scaled_of, plus_times, over_of, sqdist_of};
ghost use Rattle.color.specs.Blend.{blend, nudged};

#[derive(Clone, Copy)]
pub struct Oklab {
    pub l: f32,
    pub a: f32,
    pub b: f32,
}

// Colour i of a flat slice.
pub fn colour(s: &[f32], i: usize) -> Oklab
    requires { 3 * i + 2 < length s.now }
    ensures { result ≡ colour_at s.now i }
{
    let j = 3 * i;
    Oklab {
        l: s[j],
        a: s[j + 1],
        b: s[j + 2],
    }
}

// Colour i of a flat slice becomes x.
#[tactic(auto, unfolding(crate::specs::Color::put_at))]
pub fn put(s: &mut [f32], i: usize, x: Oklab)
    requires { 3 * i + 2 < length s.old }
    ensures { s.new ≡ put_at s.old i x }
{
    let j = 3 * i;
    s[j] = x.l;
    s[j + 1] = x.a;
    s[j + 2] = x.b;
}

pub fn plus(x: Oklab, q: Oklab) -> Oklab
    ensures { result ≡ plus_of x q }
{
    Oklab {
        l: x.l + q.l,
        a: x.a + q.a,
        b: x.b + q.b,
    }
}

pub fn scaled(q: Oklab, x: f32) -> Oklab
    ensures { result ≡ scaled_of q x }
{
    Oklab {
        l: q.l * x,
        a: q.a * x,
        b: q.b * x,
    }
}

// x with m pixels of the colour q; so few pixels that the cast is exact.
pub fn plus_times(x: Oklab, q: Oklab, m: u32) -> Oklab
    requires { m ≤ 16777216 }
    ensures { result ≡ plus_times x q m }
{
    plus(x, scaled(q, m as f32))
}

// x divided by n, which the format holds.
pub fn over(x: Oklab, n: usize) -> Oklab
    requires { n ≤ 16777216 }
    ensures { result ≡ over_of x n }
{
    let f = n as f32;
    Oklab {
        l: x.l / f,
        a: x.a / f,
        b: x.b / f,
    }
}

// Squared distance between two colours, penalizing chroma mismatch by `weight`.
pub fn oklab_sqdist(p: Oklab, q: Oklab, weight: f32) -> f32
    ensures { result ≡ sqdist_of p q weight }
{
    let dl = p.l - q.l;
    let da = p.a - q.a;
    let db = p.b - q.b;
    dl * dl + weight * (da * da + db * db)
}

// (1 - alpha) of c and alpha of t.
fn blend(alpha: f32, c: f32, t: f32) -> f32
    ensures { result ≡ blend alpha c t }
{
    (1.0 - alpha) * c + alpha * t
}

// A colour moves towards another.
#[tactic(auto, using(crate::proofs::Puts::colour_eq))]
pub fn nudged(alpha: f32, c: Oklab, t: Oklab) -> Oklab
    ensures { result ≡ nudged alpha c t }
{
    Oklab {
        l: blend(alpha, c.l, t.l),
        a: blend(alpha, c.a, t.a),
        b: blend(alpha, c.b, t.b),
    }
}
