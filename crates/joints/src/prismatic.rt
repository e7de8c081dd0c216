// A joint that leaves two bodies free to move along one axis (src/dynamics/joints/prismatic.rs). The Rust's `limit_compliance` is not read by its solver.
use crate::motor::LinearMotor;
use crate::{DistanceLimit, JointFrame};
use vector::Vec3;

#[derive(Clone, Copy)]
pub struct PrismaticJoint {
    pub frame1: JointFrame,
    pub frame2: JointFrame,
    pub slider_axis: Vec3,
    pub limits: Option<DistanceLimit>,
    pub align_compliance: f32,
    pub angle_compliance: f32,
    pub motor: LinearMotor,
}
