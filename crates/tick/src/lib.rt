// Ticks of a card: the public calls `tick` and `run`, and below them a tick's steps over all bodies or joints of a linkage, one joint and one body.
#![tactic(auto)]

pub mod body;
mod constraint;
pub mod finite;
pub mod joint;
mod linked;
pub mod run;
mod running;
mod steps;
mod turn;
