// What is promised beyond the contracts, each theorem by its name and type: a crate of proofs alone.
#![tactic(auto)]
