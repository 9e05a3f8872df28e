// The mean squared error of a palette over a job's tiles: what it is stands in specs/Mse.antt, how large it can be in proofs/.
// The code stands in palette_mse_sum. Here is only what it sums into.
#![tactic(auto)]

// A sum of distances times counts, and the pixels counted.
#[derive(Clone, Copy)]
pub struct Tally {
    pub total: f64,
    pub count: u64,
}
