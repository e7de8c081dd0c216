// The solver's parts for C and Rust, for the comparison layer by layer: a slice is a pointer and a count. A call from an input to an output slice answers 1 and
// writes nothing where a length is not the one that its comment says, else 0.
#![tactic(auto)]

pub mod any_joint;
pub mod arithmetic;
pub mod corrections;
pub mod limits;
pub mod slices;
