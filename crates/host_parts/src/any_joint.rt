// A joint of any kind: its prepared numbers, and the tick's own warm start and solve of it, and the tick's projections.
//
// By numbers of kinds and motors, since a call for C can have no others. A joint's call takes the card's kind, its limit bits (first 1, second 2), its motor, which body is anchored (0 none, 1, 2), both bodies' locks,
// and 95 numbers: the joint's 30 in the card's order, two poses (20), the last tick's motor total (3), two bodies (26), two inertias (14), the warm
// coefficient and dt.
ghost use Rattle.std.specs.Prelude.{IfSome};
ghost use Rattle.joints.specs.Reach.{InReach, EachAngleLimit};

use crate::limits::{MotorNumbers, angle_limit};
use crate::slices::{FromNumbers, Inertia, ToNumbers, convert};
use joints::distance::DistanceJoint;
use joints::fixed::FixedJoint;
use joints::prismatic::PrismaticJoint;
use joints::revolute::RevoluteJoint;
use joints::spherical::SphericalJoint;
use joints::{DistanceLimit, Joint, JointFrame};
use solver_body::{BodyPair, RigidBody, SolverBody, SolverBodyInertia};
use std::slice::{Iter, IterMut};
use tick::body::{project_angular_velocity, project_linear_velocity};
use tick::joint::{solve_joint, warm_start_joint};
use vector::{Quat, Vec3};
use xpbd_joints::JointTotals;
use xpbd_joints::distance::DistanceJointSolverData;
use xpbd_joints::fixed::FixedJointSolverData;
use xpbd_joints::prismatic::PrismaticJointSolverData;
use xpbd_joints::revolute::RevoluteJointSolverData;
use xpbd_joints::spherical::SphericalJointSolverData;

// A joint's 30 numbers: the fourth compliance, which no kind here has, is left out of what is made of them. By kind as in the loader, whose record is bytes and whose
// limits are the card's: a trait for either's numbers would be longer than the five functions.
#[derive(Clone, Copy)]
struct JointNumbers {
    frame1: JointFrame,
    frame2: JointFrame,
    axis: Vec3,
    compliances: (f32, f32, f32, f32),
    limit1: DistanceLimit,
    limit2: DistanceLimit,
    motor: MotorNumbers,
}

impl FromNumbers for JointNumbers {
    #[inline(always)]
    fn read(from: &mut Iter<'_, f32>) -> JointNumbers {
        let ((anchor1, anchor2), (basis1, basis2), axis, compliances) = FromNumbers::read(from);
        let (limit1, limit2, motor) = FromNumbers::read(from);
        JointNumbers {
            frame1: JointFrame {
                anchor: anchor1,
                basis: basis1,
            },
            frame2: JointFrame {
                anchor: anchor2,
                basis: basis2,
            },
            axis,
            compliances,
            limit1,
            limit2,
            motor,
        }
    }
}

impl JointNumbers {
    fn fixed(self) -> FixedJoint {
        FixedJoint {
            frame1: self.frame1,
            frame2: self.frame2,
            point_compliance: self.compliances.0,
            angle_compliance: self.compliances.1,
        }
    }

    fn revolute(self, limited: bool, motor: u32) -> RevoluteJoint
        ensures { IfSome result.angle_limit InReach }
    {
        RevoluteJoint {
            frame1: self.frame1,
            frame2: self.frame2,
            hinge_axis: self.axis,
            angle_limit: angle_limit(limited, self.limit1.min, self.limit1.max),
            point_compliance: self.compliances.0,
            align_compliance: self.compliances.1,
            limit_compliance: self.compliances.2,
            motor: self.motor.angular(motor),
        }
    }

    fn prismatic(self, limited: bool, motor: u32) -> PrismaticJoint {
        PrismaticJoint {
            frame1: self.frame1,
            frame2: self.frame2,
            slider_axis: self.axis,
            limits: if limited { Some(self.limit1) } else { None },
            angle_compliance: self.compliances.0,
            align_compliance: self.compliances.1,
            motor: self.motor.linear(motor),
        }
    }

    fn spherical(self, swing_limited: bool, twist_limited: bool) -> SphericalJoint
        ensures { IfSome result.swing_limit InReach × IfSome result.twist_limit InReach }
    {
        SphericalJoint {
            frame1: self.frame1,
            frame2: self.frame2,
            twist_axis: self.axis,
            swing_limit: angle_limit(swing_limited, self.limit1.min, self.limit1.max),
            twist_limit: angle_limit(twist_limited, self.limit2.min, self.limit2.max),
            point_compliance: self.compliances.0,
            swing_compliance: self.compliances.1,
            twist_compliance: self.compliances.2,
        }
    }

    fn distance(self) -> DistanceJoint {
        DistanceJoint {
            anchor1: self.frame1.anchor,
            anchor2: self.frame2.anchor,
            limits: self.limit1,
            compliance: self.compliances.0,
        }
    }

    // The card's kinds; any number above 4 is as 4. In line, so that no number is copied that its kind does not read.
    #[inline(always)]
    fn joint(self, kind: u32, limits: u32, motor: u32) -> Joint
        ensures { EachAngleLimit InReach result }
    {
        let first = limits % 2 == 1;
        let second = limits / 2 % 2 == 1;
        match kind {
            0 => Joint::Fixed(self.fixed()),
            1 => Joint::Revolute(self.revolute(first, motor)),
            2 => Joint::Prismatic(self.prismatic(first, motor)),
            3 => Joint::Spherical(self.spherical(first, second)),
            _ => Joint::Distance(self.distance()),
        }
    }
}

// What a joint's call reads.
#[derive(Clone, Copy)]
struct JointInput {
    joint: JointNumbers,
    poses: (RigidBody, RigidBody),
    motor_total: Vec3,
    bodies: BodyPair,
    inertias: (Inertia, Inertia),
    warm_coefficient: f32,
    dt: f32,
}

impl FromNumbers for JointInput {
    #[inline(always)]
    fn read(from: &mut Iter<'_, f32>) -> JointInput {
        let (joint, poses, motor_total) = FromNumbers::read(from);
        let (bodies, inertias, warm_coefficient, dt) = FromNumbers::read(from);
        JointInput {
            joint,
            poses,
            motor_total,
            bodies,
            inertias,
            warm_coefficient,
            dt,
        }
    }
}

// Both bodies and their inertias.
#[derive(Clone, Copy)]
struct Sides {
    bodies: BodyPair,
    inertia1: SolverBodyInertia,
    inertia2: SolverBodyInertia,
}

impl JointInput {
    // The totals of the last tick: all zero but the motor's.
    fn last_totals(&self, kind: u32) -> JointTotals {
        match kind {
            1 => JointTotals {
                fourth: self.motor_total,
                ..JointTotals::ZERO
            },
            2 => JointTotals {
                third: self.motor_total,
                ..JointTotals::ZERO
            },
            _ => JointTotals::ZERO,
        }
    }

    fn sides(&self, anchored: u32, locks1: u32, locks2: u32) -> Sides {
        let mut sides = Sides {
            bodies: self.bodies,
            inertia1: self.inertias.0.locked(locks1),
            inertia2: self.inertias.1.locked(locks2),
        };
        if anchored == 1 {
            sides.bodies.body1 = SolverBody::DUMMY;
            sides.inertia1 = SolverBodyInertia::DUMMY;
        }
        if anchored == 2 {
            sides.bodies.body2 = SolverBody::DUMMY;
            sides.inertia2 = SolverBodyInertia::DUMMY;
        }
        sides
    }
}

impl ToNumbers for FixedJointSolverData {
    fn write(self, to: &mut IterMut<'_, f32>) {
        (
            self.point_constraint,
            self.angle_constraint.rotation_difference,
        )
            .write(to);
    }
}

impl ToNumbers for RevoluteJointSolverData {
    fn write(self, to: &mut IterMut<'_, f32>) {
        (self.point_constraint, (self.a1, self.a2, self.b1, self.b2)).write(to);
    }
}

impl ToNumbers for PrismaticJointSolverData {
    fn write(self, to: &mut IterMut<'_, f32>) {
        (
            (self.world_r1, self.world_r2, self.center_difference),
            self.free_axis1,
            self.angle_constraint.rotation_difference,
        )
            .write(to);
    }
}

impl ToNumbers for SphericalJointSolverData {
    fn write(self, to: &mut IterMut<'_, f32>) {
        (
            self.point_constraint,
            (
                self.swing_axis1,
                self.swing_axis2,
                self.twist_axis1,
                self.twist_axis2,
            ),
        )
            .write(to);
    }
}

impl ToNumbers for DistanceJointSolverData {
    fn write(self, to: &mut IterMut<'_, f32>) {
        (self.world_r1, self.world_r2, self.center_difference).write(to);
    }
}

// A joint between two poses.
struct Prepared(Joint, RigidBody, RigidBody);

// The kind's prepared numbers, at most 21; the others are left.
impl ToNumbers for Prepared {
    fn write(self, to: &mut IterMut<'_, f32>) {
        let Prepared(joint, body1, body2) = self;
        match joint {
            Joint::Fixed(j) => FixedJointSolverData::prepare(j, body1, body2).write(to),
            Joint::Revolute(j) => RevoluteJointSolverData::prepare(j, body1, body2).write(to),
            Joint::Prismatic(j) => PrismaticJointSolverData::prepare(j, body1, body2).write(to),
            Joint::Spherical(j) => SphericalJointSolverData::prepare(j, body1, body2).write(to),
            Joint::Distance(j) => DistanceJointSolverData::prepare(j, body1, body2).write(to),
        }
    }
}

// The prepared numbers (21).
#[unsafe(no_mangle)]
pub extern "C" fn linkage_prepare(
    kind: u32,
    limits: u32,
    motor: u32,
    input: &[f32],
    output: &mut [f32],
) -> u32 {
    convert(input, 95, output, 21, |input: JointInput| {
        let joint = input.joint.joint(kind, limits, motor);
        Prepared(joint, input.poses.0, input.poses.1)
    })
}

// Both bodies after the warm start (26).
#[unsafe(no_mangle)]
pub extern "C" fn linkage_warm_start(
    kind: u32,
    limits: u32,
    motor: u32,
    anchored: u32,
    locks1: u32,
    locks2: u32,
    input: &[f32],
    output: &mut [f32],
) -> u32 {
    convert(input, 95, output, 26, |input: JointInput| {
        let sides = input.sides(anchored, locks1, locks2);
        warm_start_joint(
            input.joint.joint(kind, limits, motor),
            input.poses.0,
            input.poses.1,
            input.last_totals(kind),
            sides.bodies,
            sides.inertia1,
            sides.inertia2,
            input.warm_coefficient,
            input.dt,
        )
    })
}

impl ToNumbers for JointTotals {
    fn write(self, to: &mut IterMut<'_, f32>) {
        (self.first, self.second, self.third, self.fourth).write(to);
    }
}

// 1 where after the solve all numbers that refusal 13 looks at are finite, else 0; the four totals and both bodies (39).
#[unsafe(no_mangle)]
pub extern "C" fn linkage_solve(
    kind: u32,
    limits: u32,
    motor: u32,
    anchored: u32,
    locks1: u32,
    locks2: u32,
    input: &[f32],
    output: &mut [f32],
) -> u32 {
    convert(input, 95, output, 39, |input: JointInput| {
        let sides = input.sides(anchored, locks1, locks2);
        let solved = solve_joint(
            input.joint.joint(kind, limits, motor),
            input.poses.0,
            input.poses.1,
            sides.bodies,
            sides.inertia1,
            sides.inertia2,
            input.dt,
        );
        (solved.finite, solved.totals, solved.bodies)
    })
}

// A body, its pre-solve deltas, dt (21) to the body with both velocities projected (13).
#[unsafe(no_mangle)]
pub extern "C" fn linkage_project(input: &[f32], output: &mut [f32]) -> u32 {
    convert(
        input,
        21,
        output,
        13,
        |(body, position, rotation, dt): (SolverBody, Vec3, Quat, f32)| {
            project_angular_velocity(project_linear_velocity(body, position, dt), rotation, dt)
        },
    )
}

// The dummy body and the dummy inertia (23).
#[unsafe(no_mangle)]
pub extern "C" fn linkage_dummy(output: &mut [f32]) -> u32 {
    convert(&[], 0, output, 23, |()| {
        (SolverBody::DUMMY, SolverBodyInertia::DUMMY)
    })
}
