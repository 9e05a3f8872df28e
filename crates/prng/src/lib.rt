// SplitMix64: its finalizer, a word mixed by two products and three shifts; the generator, and the Fisher-Yates shuffle that it drives.
// Assumes nothing.
#![tactic(auto)]

ghost use Rattle.std.specs.Prelude.{◌≡◌, ◌*◌, ◌%◌, ◌^◌};
ghost use Rattle.prng.specs.SplitMix.{mix, next_state, output};
ghost use Rattle.prng.specs.Shuffle.{deck, shuffle_of};

// a * b, modulo 2^64, from the products of their halves of 32 bits. The product of the upper halves
// is a multiple of 2^64, and the two cross products count only by their lowest 32 bits, which the
// shift keeps.
fn wrapping_mul(a: u64, b: u64) -> u64
    ensures { result ≡ a * b % 2 ^ 64 }
{
    let a0 = a & 0xffff_ffff;
    let a1 = a >> 32;
    let b0 = b & 0xffff_ffff;
    let b1 = b >> 32;
    let cross = std::num::wrapping_add_u64(a1 * b0, a0 * b1);
    std::num::wrapping_add_u64(cross << 32, a0 * b0)
}

// SplitMix64's finalizer.
#[tactic(auto, unfolding(crate::specs::SplitMix::mix, crate::specs::SplitMix::xor_shift))]
pub fn mixed(x: u64) -> u64
    ensures { result ≡ mix x }
{
    let y = wrapping_mul(x ^ (x >> 30), 0xbf58_476d_1ce4_e5b9);
    let z = wrapping_mul(y ^ (y >> 27), 0x94d0_49bb_1331_11eb);
    z ^ (z >> 31)
}

// The generator's state.
#[derive(Drop)]
pub struct Prng {
    pub state: u64,
}

impl Prng {
    // The generator from a seed.
    pub fn new(seed: u64) -> Prng
        ensures { result.state ≡ seed }
    {
        Prng { state: seed }
    }

    // The next output; the generator goes on.
    #[tactic(auto, unfolding(crate::specs::SplitMix::output, crate::specs::SplitMix::next_state))]
    pub fn next(&mut self) -> u64
        ensures { (result ≡ output self.old.state) × (self.new.state ≡ next_state self.old.state) }
    {
        self.state = std::num::wrapping_add_u64(self.state, 0x9e37_79b9_7f4a_7c15);
        mixed(self.state)
    }

    // Fisher-Yates shuffle. The items from i on are in place once the turn at i is over.
    pub fn shuffle(&mut self, items: &mut [u32])
        ensures { deck items.new self.new.state ≡ shuffle_of self.old.state items.old }
    {
        for i in (1..items.len()).rev() {
            let j = (self.next() % (i as u64 + 1)) as usize;
            items.swap(i, j);
        }
    }
}
