// Joints, their limits and motors (src/dynamics/joints).
// The card's hinge, slide, ball and tether are the revolute, prismatic, spherical and distance joint.
#![tactic(auto)]

ghost use Rattle.std.specs.Prelude.{◌≡◌};
ghost use Rattle.joints.specs.Limit.{distance_correction, axis_correction, obtuse, wrapped, angle_about, angle_correction};
ghost use Rattle.joints.specs.Reach.{InReach};

use root::sqrt;
use scalar::{EPSILON, PI, TAU, clamp};
use trig::asin;
use vector::{Quat, Vec3};

pub mod distance;
pub mod fixed;
pub mod motor;
pub mod prismatic;
pub mod revolute;
pub mod spherical;

use distance::DistanceJoint;
use fixed::FixedJoint;
use prismatic::PrismaticJoint;
use revolute::RevoluteJoint;
use spherical::SphericalJoint;

#[derive(Clone, Copy)]
pub enum Joint {
    Fixed(FixedJoint),
    Revolute(RevoluteJoint),
    Prismatic(PrismaticJoint),
    Spherical(SphericalJoint),
    Distance(DistanceJoint),
}

// A joint's anchor and basis, relative to a body.
#[derive(Clone, Copy)]
pub struct JointFrame {
    pub anchor: Vec3,
    pub basis: Quat,
}

#[derive(Clone, Copy)]
pub struct DistanceLimit {
    pub min: f32,
    pub max: f32,
}

// An answer of the limit's own, as document 01 has it, in place of an `Option`: where nothing is to be corrected, both are zero.
#[derive(Clone, Copy)]
pub struct DistanceCorrection {
    pub direction: Vec3,
    pub magnitude: f32,
}

impl DistanceCorrection {
    pub const NONE: DistanceCorrection = DistanceCorrection {
        direction: Vec3::ZERO,
        magnitude: 0.0,
    };
}

impl DistanceLimit {
    pub const ZERO: DistanceLimit = DistanceLimit { min: 0.0, max: 0.0 };

    #[tactic(auto, unfolding(crate::specs::Limit::distance_correction, vector::specs::Vector::length_of))]
    pub fn compute_correction(self, separation: Vec3) -> DistanceCorrection
        ensures { result ≡ distance_correction self separation }
    {
        let distance_squared = separation.length_squared();
        if distance_squared <= EPSILON {
            return DistanceCorrection::NONE;
        }
        let distance = sqrt(distance_squared);
        if distance < self.min {
            DistanceCorrection {
                direction: separation / distance,
                magnitude: self.min - distance,
            }
        } else if distance > self.max {
            DistanceCorrection {
                direction: -separation / distance,
                magnitude: distance - self.max,
            }
        } else {
            DistanceCorrection::NONE
        }
    }

    #[tactic(auto, unfolding(crate::specs::Limit::axis_correction))]
    pub fn compute_correction_along_axis(self, separation: Vec3, axis: Vec3) -> Vec3
        ensures { result ≡ axis_correction self separation axis }
    {
        let a = separation.dot(axis);
        if a < self.min {
            axis * (self.min - a)
        } else if a > self.max {
            -axis * (a - self.max)
        } else {
            Vec3::ZERO
        }
    }
}

// Any two numbers, as the definitions have it: that they are within reach is asked where it is needed, since a ghost field would narrow what is said of every limit.
#[derive(Clone, Copy)]
pub struct AngleLimit {
    pub min: f32,
    pub max: f32,
}

// An answer of the limit's own, as document 01 has it, in place of an `Option`.
#[derive(Clone, Copy)]
pub enum AngleCorrection {
    None,
    Some(Vec3),
}

// An arc sine is right for an acute angle.
#[tactic(auto, unfolding(crate::specs::Limit::obtuse))]
fn obtuse(phi: f32, cosine: f32) -> f32
    ensures { result ≡ obtuse phi cosine }
{
    if cosine < 0.0 { PI - phi } else { phi }
}

#[tactic(auto, unfolding(crate::specs::Limit::wrapped))]
fn wrapped(phi: f32) -> f32
    ensures { result ≡ wrapped phi }
{
    if phi > PI { phi - TAU } else { phi }
}

#[tactic(auto, unfolding(crate::specs::Limit::angle_about))]
fn angle_about(limit_axis: Vec3, axis1: Vec3, axis2: Vec3) -> f32
    ensures { result ≡ angle_about limit_axis axis1 axis2 }
{
    let phi = asin(axis1.cross(axis2).dot(limit_axis));
    wrapped(obtuse(phi, axis1.dot(axis2)))
}

impl AngleLimit {
    #[tactic(auto, unfolding(crate::specs::Limit::angle_correction))]
    pub fn compute_correction(
        self,
        limit_axis: Vec3,
        axis1: Vec3,
        axis2: Vec3,
        max_correction: f32,
    ) -> AngleCorrection
        requires { InReach self }
        ensures { result ≡ angle_correction self limit_axis axis1 axis2 max_correction }
    {
        let phi = angle_about(limit_axis, axis1, axis2);
        if phi < self.min || phi > self.max {
            let rot = Quat::from_angle_in_reach(limit_axis, clamp(phi, self.min, self.max));
            return AngleCorrection::Some(
                (rot * axis1).cross(axis2).clamp_length_max(max_correction),
            );
        }
        AngleCorrection::None
    }
}
