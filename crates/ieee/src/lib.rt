// IEEE 754: what its laws speak of in specs/, the laws of rounding, of the arithmetic and of the order in proofs/. No function.
#![tactic(auto)]
