// The three demands as theorems over the definitions that the public calls meet, and the examples: what they say in specs/, the proofs in proofs/. No function.
#![tactic(auto)]
