// The cycle of samples: an order that the caller lends, gone through from the left in rounds. Between
// two rounds the order, as it is then, is shuffled again. How evenly samples are drawn is in proofs/. Assumes nothing.
#![tactic(auto)]

ghost use Rattle.std.specs.Prelude.{◌≡◌, ◌<◌, ◌+◌, ◌/◌, ◌^◌, ◌≤◌, length};
ghost use Rattle.prng.specs.Shuffle.{deck};
ghost use Rattle.lists.specs.Firsts.{up_to};
ghost use Rattle.cycle.specs.Cycle.{cycle, ready, drawn, draw_one, after};

use prng::Prng;

// Shuffles the present order again where, after `made` draws, a round is over and another begins.
#[tactic(auto, using(crate::proofs::Ready::ready_first, crate::proofs::Ready::ready_within, crate::proofs::Ready::ready_again))]
pub fn reshuffle(prng: &mut Prng, made: u64, order: &mut [u32])
    requires { 0 < length order.old }
    ensures { deck order.new prng.new.state ≡ ready (cycle (deck order.old prng.old.state) made) }
{
    if 0 < made && made % order.len() as u64 == 0 {
        prng.shuffle(order);
    }
}

// b, the draws of a round: a tenth of n samples, rounded down. That the Rust's f32 tenth, cut to a whole number, is the same for every
// n up to 16,384 is a law of cycle.
pub fn base_iterations(n: usize) -> u64
    ensures { result ≡ n / 10 }
{
    n as u64 / 10
}

// The generator that shuffles next, and the draws made since the start. The order itself is lent.
#[derive(Drop)]
pub struct SampleCycle {
    pub prng: Prng,
    pub made: u64,
}

// Fills order with 0, 1 ..
#[tactic(auto, unfolding(lists::specs::Firsts::firsts))]
fn fill(order: &mut [u32])
    requires { length order.old ≤ 2 ^ 32 }
    ensures { order.new ≡ up_to (length order.old) }
{
    for (i, place) in order.iter_mut().enumerate() {
        *place = i as u32;
    }
}

impl SampleCycle {
    // Writes the first order: 0, 1 .. shuffled from the seed.
    #[tactic(auto, unfolding(crate::specs::Cycle::after))]
    pub fn new(order: &mut [u32], seed: u64) -> SampleCycle
        requires { length order.old ≤ 2 ^ 32 }
        ensures { cycle (deck order.new result.prng.state) result.made ≡ after (length order.old) seed 0 }
    {
        fill(order);
        let mut prng = Prng::new(seed);
        prng.shuffle(order);
        SampleCycle { prng, made: 0 }
    }

    // The next draw.
    #[tactic(auto, unfolding(crate::specs::Cycle::draw_one))]
    pub fn next(&mut self, order: &mut [u32]) -> u32
        requires { (0 < length order.old) × (self.old.made + 1 < 2 ^ 64) }
        ensures { drawn result (cycle (deck order.new self.new.prng.state) self.new.made) ≡ draw_one (cycle (deck order.old self.old.prng.state) self.old.made) }
    {
        reshuffle(&mut self.prng, self.made, order);
        let at = (self.made % order.len() as u64) as usize;
        self.made += 1;
        order[at]
    }
}
