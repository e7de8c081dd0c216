// A correction of given direction and size at two points (src/dynamics/solver/xpbd/positional_constraint.rs).
ghost use Rattle.std.specs.Prelude.{◌≡◌};
ghost use Rattle.vector.specs.Vector.{add_of, sub_of};
ghost use Rattle.vector.specs.Rotation.{turn_of};
ghost use Rattle.xpbd.specs.Positional.{generalized_inverse_mass, delta_rot_of, impulse_applied, weight, anchor_arm, separation_of};
ghost use Rattle.xpbd.specs.Parts.{pair, correction_impulse};

use crate::compute_lagrange_update;
use solver_body::{BodyPair, RigidBody, SolverBody, SolverBodyInertia};
use vector::{Quat, SymmetricTensor, Vec3};

#[tactic(auto, unfolding(crate::specs::Positional::generalized_inverse_mass))]
pub fn compute_generalized_inverse_mass(
    inv_mass: f32,
    inv_angular_inertia: SymmetricTensor,
    r: Vec3,
    n: Vec3,
) -> f32
    ensures { result ≡ generalized_inverse_mass inv_mass inv_angular_inertia r n }
{
    let r_cross_n = r.cross(n);
    inv_mass + r_cross_n.dot(inv_angular_inertia * r_cross_n)
}

#[tactic(auto, unfolding(crate::specs::Positional::delta_rot_of))]
pub fn get_delta_rot(inv_angular_inertia: SymmetricTensor, r: Vec3, p: Vec3) -> Quat
    ensures { result ≡ delta_rot_of inv_angular_inertia r p }
{
    Quat::from_scaled_axis(inv_angular_inertia * r.cross(p))
}

#[tactic(auto, unfolding(crate::specs::Positional::pushed, crate::specs::Positional::pulled, crate::specs::Positional::impulse_applied))]
pub fn apply_positional_impulse(
    body1: &mut SolverBody,
    body2: &mut SolverBody,
    inertia1: SolverBodyInertia,
    inertia2: SolverBodyInertia,
    impulse: Vec3,
    r1: Vec3,
    r2: Vec3,
)
    ensures { pair body1.new body2.new ≡ impulse_applied (pair body1.old body2.old) inertia1 inertia2 impulse r1 r2 }
{
    body1.delta_position += impulse * inertia1.effective_inv_mass();
    body1.delta_rotation = get_delta_rot(inertia1.inv_angular_inertia, r1, impulse)
        * body1.delta_rotation;
    body2.delta_position -= impulse * inertia2.effective_inv_mass();
    body2.delta_rotation = get_delta_rot(inertia2.inv_angular_inertia, r2, -impulse)
        * body2.delta_rotation;
}

// The same with the bodies passed and returned, so that a caller needs no variables of its own, and its proof is found alone.
pub fn positional_impulse(
    bodies: BodyPair,
    inertia1: SolverBodyInertia,
    inertia2: SolverBodyInertia,
    impulse: Vec3,
    r1: Vec3,
    r2: Vec3,
) -> BodyPair
    ensures { result ≡ impulse_applied bodies inertia1 inertia2 impulse r1 r2 }
{
    let mut body1 = bodies.body1;
    let mut body2 = bodies.body2;
    apply_positional_impulse(&mut body1, &mut body2, inertia1, inertia2, impulse, r1, r2);
    BodyPair { body1, body2 }
}

// A body's generalized inverse mass, with the largest of its inverse masses.
#[tactic(auto, unfolding(crate::specs::Positional::weight))]
pub fn weight(inertia: SolverBodyInertia, r: Vec3, n: Vec3) -> f32
    ensures { result ≡ weight inertia r n }
{
    compute_generalized_inverse_mass(
        inertia.effective_inv_mass().max_element(),
        inertia.inv_angular_inertia,
        r,
        n,
    )
}

#[tactic(auto, unfolding(crate::specs::Parts::correction_impulse))]
pub fn correction_impulse(
    inertia1: SolverBodyInertia,
    inertia2: SolverBodyInertia,
    r1: Vec3,
    r2: Vec3,
    dir: Vec3,
    magnitude: f32,
    compliance: f32,
    dt: f32,
) -> Vec3
    ensures { result ≡ correction_impulse inertia1 inertia2 r1 r2 dir magnitude compliance dt }
{
    let w1 = weight(inertia1, r1, dir);
    let w2 = weight(inertia2, r2, dir);
    compute_lagrange_update(0.0, magnitude, w1, w2, compliance, dt) * dir
}

// From a body's centre of mass to an anchor, in world axes.
#[tactic(auto, unfolding(crate::specs::Positional::anchor_arm))]
pub fn anchor_arm(body: RigidBody, local_anchor: Vec3) -> Vec3
    ensures { result ≡ anchor_arm body local_anchor }
{
    body.rotation * (local_anchor - body.center_of_mass)
}

// From a body's origin to its centre of mass, in world axes.
pub fn center_arm(body: RigidBody) -> Vec3
    ensures { result ≡ turn_of body.rotation body.center_of_mass }
{
    body.rotation * body.center_of_mass
}

// From the first centre of mass to the second, with both arms.
pub fn center_difference(body1: RigidBody, body2: RigidBody, center1: Vec3, center2: Vec3) -> Vec3
    ensures { result ≡ add_of (sub_of body2.position body1.position) (sub_of center2 center1) }
{
    (body2.position - body1.position) + (center2 - center1)
}

// From the first anchor to the second.
#[tactic(auto, unfolding(crate::specs::Positional::separation_of))]
pub fn separation(bodies: BodyPair, world_r1: Vec3, world_r2: Vec3, center_difference: Vec3) -> Vec3
    ensures { result ≡ separation_of bodies.body1.delta_position bodies.body2.delta_position world_r1 world_r2 center_difference }
{
    (bodies.body2.delta_position - bodies.body1.delta_position)
        + (world_r2 - world_r1)
        + center_difference
}
