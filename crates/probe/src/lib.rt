// Forwarders to the leaves, for the comparison with the Rust: numbers and slices alone, so that C can call.
// Each carries what its callee requires; the comparison's cases meet it.
#![tactic(auto)]

mod choices;
mod colors;
mod draws;
