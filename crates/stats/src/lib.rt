// Selection helpers: the least and the least two of any values. Each function gives what its definition in specs/Stats.antt says.
// The choice of the least from any hint is laws only, over any distance on indexes. Assumes nothing.
#![tactic(auto)]

ghost use Rattle.std.specs.Prelude.{◌≡◌};
ghost use Rattle.stats.specs.Stats.{step_near, step_two, with_other};

// Index and value of the smallest.
#[derive(Clone, Copy)]
pub struct Near {
    pub index: usize,
    pub dist: f32,
}

// Indexes and values of the smallest and of the second smallest, `next` at `second`; `next` is `index` where there is no other.
#[derive(Clone, Copy)]
pub struct Two {
    pub index: usize,
    pub dist: f32,
    pub next: usize,
    pub second: f32,
}

// The smallest with one value more, d at index i.
#[tactic(auto, using(crate::proofs::Steps::near_by))]
pub fn step_near(best: Near, i: usize, d: f32) -> Near
    ensures { result ≡ step_near best i d }
{
    if d < best.dist {
        Near { index: i, dist: d }
    } else {
        best
    }
}

// The smallest two, b, with one value more, d at index i. The Rust's walks the values; here whoever has them does, from index 0 and
// infinity twice.
#[tactic(auto, using(crate::proofs::Steps::two_by))]
pub fn smallest_two(b: Two, i: usize, d: f32) -> Two
    ensures { result ≡ step_two b i d }
{
    if d < b.dist {
        Two {
            index: i,
            dist: d,
            next: b.index,
            second: b.dist,
        }
    } else if d < b.second {
        Two {
            next: i,
            second: d,
            ..b
        }
    } else {
        b
    }
}

// The smallest two of n values, all of which b has seen: where it met no other below infinity, the first other is next. After the walk and
// not in it: a third test there keeps the compiler from lanes.
#[tactic(auto, using(crate::proofs::Steps::other_apart, crate::proofs::Steps::other_few, crate::proofs::Steps::other_named))]
pub fn with_other(b: Two, n: usize) -> Two
    ensures { result ≡ with_other n b }
{
    if b.next == b.index && n > 1 {
        return Two { next: 1, ..b };
    }
    b
}
