// A joint that holds both the relative position and the relative rotation of two bodies (src/dynamics/joints/fixed.rs).
use crate::JointFrame;

#[derive(Clone, Copy)]
pub struct FixedJoint {
    pub frame1: JointFrame,
    pub frame2: JointFrame,
    pub point_compliance: f32,
    pub angle_compliance: f32,
}
