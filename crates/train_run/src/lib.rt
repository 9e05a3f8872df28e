// How `train` trains, that its calls come to it, and that every number of its run is a float of 32 bits: no code. Assumes nothing.
#![tactic(auto)]
