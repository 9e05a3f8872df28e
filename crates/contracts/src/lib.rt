// The contracts of the ten public calls, of the five for hosts and of what both programs write, as the prover has them: each says that its caller sees the
// outcome of a definition, so what is proved of the definition is proved of the function. No function.
#![tactic(auto)]
