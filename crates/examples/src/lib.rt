// Document 01's lines marked P, as one table: definitions and proofs alone.
#![tactic(auto)]
