// A card's linkage, decoded.
ghost use Rattle.loader.specs.Linked.{Tied, EachInReach, each_in_reach_prop};

use crate::body::LinkBody;
use crate::joint::LinkJoint;

// Each slice has a lifetime of its own, since a function that puts slices of two lifetimes into one gets no proof.
#[derive(Clone, Copy)]
pub struct Linkage<'b, 'j> {
    // Seconds in a tick.
    pub dt: f32,
    pub gravity: f32,
    pub warm_coefficient: f32,
    pub bodies: &'b [LinkBody],
    pub joints: &'j [LinkJoint],
    pub ghost tied: { Tied bodies.now joints.now },
    pub ghost in_reach: { EachInReach joints.now } by { each_in_reach_prop joints.now },
}
