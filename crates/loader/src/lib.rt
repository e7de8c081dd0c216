// The loader: a card's bodies and joints, decoded once into slices, and the linkage that they are.
#![tactic(auto)]

pub mod body;
pub mod header;
pub mod joint;
pub mod linkage;
pub mod load;
