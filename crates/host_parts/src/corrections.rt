// The multiplier, the weights, the impulses and the constraints that the joints share.
ghost use Rattle.std.specs.Prelude.{◌≡◌};
ghost use Rattle.xpbd.specs.Multiplier.{lagrange_update};

use crate::slices::{Inertia, ToNumbers, convert};
use solver_body::{BodyPair, RigidBody};
use std::slice::IterMut;
use vector::{Quat, SymmetricTensor, Vec3};
use xpbd::fixed_angle_constraint::FixedAngleConstraintShared;
use xpbd::point_constraint::PointConstraintShared;
use xpbd::{angular_constraint, positional_constraint};

type Inertias = (Inertia, Inertia);

type Tensors = (SymmetricTensor, SymmetricTensor);

// Compliance and dt.
type Step = (f32, f32);

#[unsafe(no_mangle)]
pub extern "C" fn linkage_lagrange_update(
    lagrange: f32,
    c: f32,
    w1: f32,
    w2: f32,
    compliance: f32,
    dt: f32,
) -> f32
    ensures { result ≡ lagrange_update lagrange c w1 w2 compliance dt }
{
    xpbd::compute_lagrange_update(lagrange, c, w1, w2, compliance, dt)
}

// An inertia, an arm, a direction (13) to the positional weight, that weight with the inverse mass alone, and the angular weight (3); the
// rotations of the direction as a positional and as an angular impulse (8).
#[unsafe(no_mangle)]
pub extern "C" fn linkage_weights(locks: u32, input: &[f32], output: &mut [f32]) -> u32 {
    convert(
        input,
        13,
        output,
        11,
        |(inertia, r, n): (Inertia, Vec3, Vec3)| {
            let body = inertia.locked(locks);
            let t = body.inv_angular_inertia;
            (
                positional_constraint::weight(body, r, n),
                positional_constraint::compute_generalized_inverse_mass(body.inv_mass, t, r, n),
                angular_constraint::compute_generalized_inverse_mass(t, n),
                (
                    positional_constraint::get_delta_rot(t, r, n),
                    angular_constraint::get_delta_rot(t, n),
                ),
            )
        },
    )
}

// Two bodies, two inertias, an impulse, two arms (49) to both bodies (26).
#[unsafe(no_mangle)]
pub extern "C" fn linkage_positional_impulse(
    locks1: u32,
    locks2: u32,
    input: &[f32],
    output: &mut [f32],
) -> u32 {
    convert(
        input,
        49,
        output,
        26,
        |(bodies, (inertia1, inertia2), impulse, (r1, r2)): (
            BodyPair,
            Inertias,
            Vec3,
            (Vec3, Vec3),
        )| {
            positional_constraint::positional_impulse(
                bodies,
                inertia1.locked(locks1),
                inertia2.locked(locks2),
                impulse,
                r1,
                r2,
            )
        },
    )
}

// Two bodies, two inverse inertias, an impulse (41) to both bodies (26).
#[unsafe(no_mangle)]
pub extern "C" fn linkage_angular_impulse(input: &[f32], output: &mut [f32]) -> u32 {
    convert(
        input,
        41,
        output,
        26,
        |(bodies, (tensor1, tensor2), impulse): (BodyPair, Tensors, Vec3)| {
            angular_constraint::angular_impulse(bodies, tensor1, tensor2, impulse)
        },
    )
}

// Two bodies, two inverse inertias, a rotation difference, compliance, dt (43) to both bodies and the multiplier times the axis (29).
#[unsafe(no_mangle)]
pub extern "C" fn linkage_align_orientation(input: &[f32], output: &mut [f32]) -> u32 {
    convert(input, 43, output, 29, |(bodies, t, difference, step)| {
        let (tensor1, tensor2): Tensors = t;
        let (compliance, dt): Step = step;
        let aligned = angular_constraint::align_orientation(
            bodies, tensor1, tensor2, difference, compliance, dt,
        );
        (aligned.bodies, aligned.lagrange)
    })
}

// Both arms and the centres' difference.
impl ToNumbers for PointConstraintShared {
    fn write(self, to: &mut IterMut<'_, f32>) {
        (self.world_r1, self.world_r2, self.center_difference).write(to);
    }
}

// Two poses, two anchors, two bodies, two inertias, compliance, dt (68) to both arms, the centres' difference, both bodies and the total (38).
#[unsafe(no_mangle)]
pub extern "C" fn linkage_point_constraint(
    locks1: u32,
    locks2: u32,
    input: &[f32],
    output: &mut [f32],
) -> u32 {
    convert(
        input,
        68,
        output,
        38,
        |((poses, anchors), bodies, inertias, (compliance, dt)): (
            ((RigidBody, RigidBody), (Vec3, Vec3)),
            BodyPair,
            Inertias,
            Step,
        )| {
            let solved = PointConstraintShared::prepare(
                poses.0, poses.1, anchors.0, anchors.1,
            ).solve(
                bodies,
                inertias.0.locked(locks1),
                inertias.1.locked(locks2),
                compliance,
                dt,
            );
            (
                solved.solver_data,
                solved.bodies,
                solved.solver_data.total_lagrange,
            )
        },
    )
}

// Two rotations, two bases, two bodies, two inverse inertias, compliance, dt (56) to the rotations' difference, both bodies and the total (33).
#[unsafe(no_mangle)]
pub extern "C" fn linkage_fixed_angle_constraint(input: &[f32], output: &mut [f32]) -> u32 {
    convert(
        input,
        56,
        output,
        33,
        |((rotation1, rotation2, basis1, basis2), bodies, (tensor1, tensor2), (compliance, dt)): (
            (Quat, Quat, Quat, Quat),
            BodyPair,
            Tensors,
            Step,
        )| {
            let constraint = FixedAngleConstraintShared::prepare(
                rotation1, rotation2, basis1, basis2,
            );
            let solved = constraint.solve(bodies, tensor1, tensor2, compliance, dt);
            (
                constraint.rotation_difference,
                solved.bodies,
                solved.solver_data.total_lagrange,
            )
        },
    )
}
