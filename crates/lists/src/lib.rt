// Laws of lists of numbers, in proofs/. No function.
#![tactic(auto)]
