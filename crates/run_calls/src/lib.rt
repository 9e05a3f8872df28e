// What holds of the run between its calls: laws over the definitions of `run_stages`, in proofs/. No function.
#![tactic(auto)]
