// Forwarders to training, for the comparison with the Rust, as those of probe.
// Each carries what its callee requires; the comparison's cases meet it.
#![tactic(auto)]

mod between;
mod drawing;
mod seeding;
