// Demand 3 over whole ticks and lists of calls: definitions and proofs alone.
#![tactic(auto)]
