// A joint that leaves two bodies free to turn about one axis (src/dynamics/joints/revolute.rs).
use crate::motor::AngularMotor;
use crate::{AngleLimit, JointFrame};
use vector::Vec3;

#[derive(Clone, Copy)]
pub struct RevoluteJoint {
    pub frame1: JointFrame,
    pub frame2: JointFrame,
    pub hinge_axis: Vec3,
    pub angle_limit: Option<AngleLimit>,
    pub point_compliance: f32,
    pub align_compliance: f32,
    pub limit_compliance: f32,
    pub motor: AngularMotor,
}
