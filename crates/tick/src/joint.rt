// A joint in a tick: its warm start and its solve by kind (src/dynamics/solver/xpbd/plugin.rs), whether all numbers are finite, and whether it breaks.
ghost use Rattle.std.specs.Prelude.{◌≡◌};
ghost use Rattle.joints.specs.Reach.{InReach, EachAngleLimit};
ghost use Rattle.tick.specs.Joint.{overloaded};
ghost use Rattle.tick.specs.Parts.{prepared_with, tested_of, joint_warmed, joint_solved};

use crate::constraint::XpbdConstraint;
use crate::finite::Finite;
use joints::Joint;
use solver_body::{BodyPair, RigidBody, SolverBodyInertia};
use vector::{SymmetricTensor, Vec3};
use xpbd_joints::{JointTotals, prismatic, revolute};

// What a tick keeps of a joint's solve. The flag stands beside the numbers, since the C interface of the comparison's parts gives both.
#[derive(Clone, Copy)]
pub struct JointResult {
    pub finite: bool,
    pub bodies: BodyPair,
    pub totals: JointTotals,
}

// Of the numbers that refusal 13 looks at, only the prepared ones are tested by kind. The parameters are those of the kinds' own `solve`: as a struct each function on the way
// would take it apart first.
fn solve_constraint<C: XpbdConstraint>(
    joint: C,
    body1: RigidBody,
    body2: RigidBody,
    bodies: BodyPair,
    inertia1: SolverBodyInertia,
    inertia2: SolverBodyInertia,
    dt: f32,
) -> JointResult
    requires { EachAngleLimit InReach (C.joint joint) }
    ensures { result ≡ prepared_with (C.joint joint) body1 body2 bodies inertia1 inertia2 dt }
{
    let prepared = joint.prepare(body1, body2);
    let finite = prepared.finite();
    let solved = joint.solve(prepared, bodies, inertia1, inertia2, dt);
    JointResult {
        finite,
        bodies: solved.bodies,
        totals: C::totals(solved.solver_data),
    }
}

fn solve_by_kind(
    joint: Joint,
    body1: RigidBody,
    body2: RigidBody,
    bodies: BodyPair,
    inertia1: SolverBodyInertia,
    inertia2: SolverBodyInertia,
    dt: f32,
) -> JointResult
    requires { EachAngleLimit InReach joint }
    ensures { result ≡ prepared_with joint body1 body2 bodies inertia1 inertia2 dt }
{
    match joint {
        Joint::Fixed(j) => solve_constraint(j, body1, body2, bodies, inertia1, inertia2, dt),
        Joint::Revolute(j) => solve_constraint(j, body1, body2, bodies, inertia1, inertia2, dt),
        Joint::Prismatic(j) => solve_constraint(j, body1, body2, bodies, inertia1, inertia2, dt),
        Joint::Spherical(j) => solve_constraint(j, body1, body2, bodies, inertia1, inertia2, dt),
        Joint::Distance(j) => solve_constraint(j, body1, body2, bodies, inertia1, inertia2, dt),
    }
}

// With the test of the totals, the bodies and their inverse inertias.
fn tested(solved: JointResult, tensor1: SymmetricTensor, tensor2: SymmetricTensor) -> JointResult
    ensures { result ≡ tested_of solved tensor1 tensor2 }
{
    let bodies = solved.bodies;
    let totals = solved.totals;
    JointResult {
        finite: solved.finite
            & totals.finite()
            & bodies.body1.finite()
            & bodies.body2.finite()
            & tensor1.finite()
            & tensor2.finite(),
        bodies,
        totals,
    }
}

// The totals are those of the last tick.
pub fn warm_start_joint(
    joint: Joint,
    body1: RigidBody,
    body2: RigidBody,
    last: JointTotals,
    bodies: BodyPair,
    inertia1: SolverBodyInertia,
    inertia2: SolverBodyInertia,
    warm_start_coefficient: f32,
    dt: f32,
) -> BodyPair
    ensures { result ≡ joint_warmed joint body1 body2 last bodies inertia1 inertia2 warm_start_coefficient dt }
{
    match joint {
        Joint::Fixed(_) => bodies,
        Joint::Revolute(revolute) => revolute::warm_start_motors(
            revolute,
            bodies,
            inertia1,
            inertia2,
            last.fourth / dt,
            warm_start_coefficient,
        ),
        Joint::Prismatic(prismatic) => prismatic::warm_start_motors(
            prismatic,
            body1,
            body2,
            bodies,
            inertia1,
            inertia2,
            last.third.x / dt,
            warm_start_coefficient,
        ),
        Joint::Spherical(_) => bodies,
        Joint::Distance(_) => bodies,
    }
}

pub fn solve_joint(
    joint: Joint,
    body1: RigidBody,
    body2: RigidBody,
    bodies: BodyPair,
    inertia1: SolverBodyInertia,
    inertia2: SolverBodyInertia,
    dt: f32,
) -> JointResult
    requires { EachAngleLimit InReach joint }
    ensures { result ≡ joint_solved joint body1 body2 bodies inertia1 inertia2 dt }
{
    let solved = solve_by_kind(joint, body1, body2, bodies, inertia1, inertia2, dt);
    tested(
        solved,
        inertia1.inv_angular_inertia,
        inertia2.inv_angular_inertia,
    )
}

// Under its first total. A load of zero never breaks.
#[tactic(auto, unfolding(crate::specs::Joint::overloaded))]
pub fn overloaded(load: f32, first: Vec3, dt: f32) -> bool
    ensures { result ≡ overloaded load first dt }
{
    if load == 0.0 {
        return false;
    }
    load < first.length() / (dt * dt)
}
