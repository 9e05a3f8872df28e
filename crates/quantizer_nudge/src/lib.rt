// What a sample's nudge does to a palette and its hints, and the laws of it. The code stands in quantizer_move.
#![tactic(auto)]
