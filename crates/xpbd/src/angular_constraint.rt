// A correction about a given axis (src/dynamics/solver/xpbd/angular_constraint.rs).
ghost use Rattle.std.specs.Prelude.{◌≡◌};
ghost use Rattle.std.specs.Float.Ieee.{neg};
ghost use Rattle.vector.specs.Vector.{scale_of};
ghost use Rattle.xpbd.specs.Parts.{pair, aligned};
ghost use Rattle.xpbd.specs.Angular.{angular_inverse_mass, angular_delta_rot, angular_impulse_applied};

use crate::compute_lagrange_update;
use scalar::EPSILON;
use solver_body::{BodyPair, SolverBody};
use vector::{Quat, SymmetricTensor, Vec3};

// Both bodies after a correction, and what it adds to the constraint's total: no `Solved`, since a multiplier is no solver data.
#[derive(Clone, Copy)]
pub struct Corrected {
    pub bodies: BodyPair,
    pub lagrange: Vec3,
}

#[tactic(auto, unfolding(crate::specs::Angular::angular_inverse_mass))]
pub fn compute_generalized_inverse_mass(inv_angular_inertia: SymmetricTensor, axis: Vec3) -> f32
    ensures { result ≡ angular_inverse_mass inv_angular_inertia axis }
{
    axis.dot(inv_angular_inertia * axis)
}

#[tactic(auto, unfolding(crate::specs::Angular::angular_delta_rot))]
pub fn get_delta_rot(inv_angular_inertia: SymmetricTensor, p: Vec3) -> Quat
    ensures { result ≡ angular_delta_rot inv_angular_inertia p }
{
    Quat::from_scaled_axis(inv_angular_inertia * p)
}

#[tactic(auto, unfolding(crate::specs::Angular::turned, crate::specs::Angular::angular_impulse_applied))]
pub fn apply_angular_impulse(
    body1: &mut SolverBody,
    body2: &mut SolverBody,
    inv_angular_inertia1: SymmetricTensor,
    inv_angular_inertia2: SymmetricTensor,
    impulse: Vec3,
)
    ensures { pair body1.new body2.new ≡ angular_impulse_applied (pair body1.old body2.old) inv_angular_inertia1 inv_angular_inertia2 impulse }
{
    body1.delta_rotation = get_delta_rot(inv_angular_inertia1, impulse) * body1.delta_rotation;
    body2.delta_rotation = get_delta_rot(inv_angular_inertia2, -impulse) * body2.delta_rotation;
}

// The same with the bodies passed and returned, so that a caller needs no variables of its own, and its proof is found alone.
pub fn angular_impulse(
    bodies: BodyPair,
    inv_angular_inertia1: SymmetricTensor,
    inv_angular_inertia2: SymmetricTensor,
    impulse: Vec3,
) -> BodyPair
    ensures { result ≡ angular_impulse_applied bodies inv_angular_inertia1 inv_angular_inertia2 impulse }
{
    let mut body1 = bodies.body1;
    let mut body2 = bodies.body2;
    apply_angular_impulse(
        &mut body1,
        &mut body2,
        inv_angular_inertia1,
        inv_angular_inertia2,
        impulse,
    );
    BodyPair { body1, body2 }
}

pub fn apply_angular_lagrange_update(
    bodies: BodyPair,
    inv_angular_inertia1: SymmetricTensor,
    inv_angular_inertia2: SymmetricTensor,
    delta_lagrange: f32,
    axis: Vec3,
) -> BodyPair
    ensures { result ≡ angular_impulse_applied bodies inv_angular_inertia1 inv_angular_inertia2 (scale_of axis (neg delta_lagrange)) }
{
    angular_impulse(
        bodies,
        inv_angular_inertia1,
        inv_angular_inertia2,
        -delta_lagrange * axis,
    )
}

#[tactic(auto, unfolding(crate::specs::Parts::aligned))]
pub fn align_orientation(
    bodies: BodyPair,
    inv_angular_inertia1: SymmetricTensor,
    inv_angular_inertia2: SymmetricTensor,
    rotation_difference: Vec3,
    compliance: f32,
    dt: f32,
) -> Corrected
    ensures { result ≡ aligned bodies inv_angular_inertia1 inv_angular_inertia2 rotation_difference compliance dt }
{
    let angle = rotation_difference.length();
    if angle <= EPSILON {
        return Corrected {
            bodies,
            lagrange: Vec3::ZERO,
        };
    }
    let axis = rotation_difference / angle;
    let w1 = compute_generalized_inverse_mass(inv_angular_inertia1, axis);
    let w2 = compute_generalized_inverse_mass(inv_angular_inertia2, axis);
    let delta_lagrange = compute_lagrange_update(0.0, angle, w1, w2, compliance, dt);
    let moved = apply_angular_lagrange_update(
        bodies,
        inv_angular_inertia1,
        inv_angular_inertia2,
        delta_lagrange,
        axis,
    );
    Corrected {
        bodies: moved,
        lagrange: delta_lagrange * axis,
    }
}
