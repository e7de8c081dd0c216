// A joint that keeps two points at a distance within limits (not among avian's published files: the fields that its solver reads).
use crate::DistanceLimit;
use vector::Vec3;

#[derive(Clone, Copy)]
pub struct DistanceJoint {
    pub anchor1: Vec3,
    pub anchor2: Vec3,
    pub limits: DistanceLimit,
    pub compliance: f32,
}
