// Forwarders to `prng` and `cycle`. Assumes of callers what each callee requires.
ghost use Rattle.std.specs.Prelude.{◌+◌, ◌^◌, ◌<◌, ◌≤◌, length};

use cycle::SampleCycle;
use prng::Prng;

// Gives the output, and in `after` the state after it.
#[unsafe(no_mangle)]
pub extern "C" fn probe_next(state: u64, after: &mut u64) -> u64 {
    let mut prng = Prng { state };
    let value = prng.next();
    *after = prng.state;
    value
}

// Gives the state after it.
#[unsafe(no_mangle)]
pub extern "C" fn probe_shuffle(state: u64, items: &mut [u32]) -> u64 {
    let mut prng = Prng { state };
    prng.shuffle(items);
    prng.state
}

#[unsafe(no_mangle)]
pub extern "C" fn probe_base_iterations(n: usize) -> u64 {
    cycle::base_iterations(n)
}

// Writes the first order; gives the generator's state.
#[unsafe(no_mangle)]
pub extern "C" fn probe_cycle_new(order: &mut [u32], seed: u64) -> u64
    requires { length order.old ≤ 2 ^ 32 }
{
    let cycle = SampleCycle::new(order, seed);
    cycle.prng.state
}

// Gives the sample drawn, and in `after` the generator's state.
#[unsafe(no_mangle)]
pub extern "C" fn probe_cycle_next(order: &mut [u32], state: u64, made: u64, after: &mut u64) -> u32
    requires { (0 < length order.old) × (made + 1 < 2 ^ 64) }
{
    let prng = Prng { state };
    let mut cycle = SampleCycle { prng, made };
    let sample = cycle.next(order);
    *after = cycle.prng.state;
    sample
}
