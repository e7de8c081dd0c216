// A joint that leaves two bodies free to turn about one point (src/dynamics/joints/spherical.rs).
use crate::{AngleLimit, JointFrame};
use vector::Vec3;

#[derive(Clone, Copy)]
pub struct SphericalJoint {
    pub frame1: JointFrame,
    pub frame2: JointFrame,
    pub twist_axis: Vec3,
    pub swing_limit: Option<AngleLimit>,
    pub twist_limit: Option<AngleLimit>,
    pub point_compliance: f32,
    pub swing_compliance: f32,
    pub twist_compliance: f32,
}
