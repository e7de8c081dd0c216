// The state: where a body's and a joint's numbers stand, the refusals 11, 12 and 21, its start and its size.
#![tactic(auto)]

pub mod check;
pub mod places;
pub mod sizes;
pub mod start;
