// Forwarders to the public calls and the sheet's reader, for the comparison with the Rust, as those of probe.
// Assumes nothing, as they do.
#![tactic(auto)]

mod fitting;
mod grouping;
mod sheets;
