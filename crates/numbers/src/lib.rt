// Lists, and vectors, rotations and symmetric tensors among the numbers of a list: definitions and laws, no code.
#![tactic(auto)]
