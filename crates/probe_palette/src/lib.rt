// Forwarders to palettes, for the comparison with the Rust, as those of probe.
// Each carries what its callee requires; the comparison's cases meet it.
#![tactic(auto)]

mod edits;
mod fits;
