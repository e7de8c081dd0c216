// The solver's part of a prismatic joint: its angle, its motor, then its positions (src/dynamics/solver/xpbd/joints/prismatic.rs).
ghost use Rattle.std.specs.Prelude.{◌≡◌};
ghost use Rattle.xpbd_joints.specs.Prepared.{axis_in};
ghost use Rattle.xpbd_joints.specs.Prismatic.{linear_motor_given, free_axis_correction, slide_correction};
ghost use Rattle.xpbd_joints.specs.Solved.{prismatic_prepared, prismatic_warm_started, counted, driven, linear_motor_stage, position_stage, prismatic_solved};

use joints::DistanceLimit;
use joints::motor::{LinearMotor, Motor};
use joints::prismatic::PrismaticJoint;
use scalar::EPSILON;
use solver_body::{BodyPair, RigidBody, SolverBodyInertia};
use vector::Vec3;
use xpbd::Solved;
use xpbd::fixed_angle_constraint::FixedAngleConstraintShared;
use xpbd::point_constraint::PointConstraintShared;
use xpbd::positional_constraint::{
    anchor_arm, correction_impulse, positional_impulse, separation, weight,
};

#[derive(Clone, Copy)]
pub struct PrismaticJointSolverData {
    pub world_r1: Vec3,
    pub world_r2: Vec3,
    pub center_difference: Vec3,
    pub free_axis1: Vec3,
    pub total_position_lagrange: Vec3,
    pub angle_constraint: FixedAngleConstraintShared,
    pub total_motor_lagrange: f32,
}

fn free_axis1(joint: PrismaticJoint, body1: RigidBody) -> Vec3
    ensures { result ≡ axis_in body1 joint.frame1 joint.slider_axis }
{
    body1.rotation * joint.frame1.basis * joint.slider_axis
}

// The motor's warm value is its total of the last step over dt. Of what `prepare` makes only the arms and the axis are read.
#[tactic(auto, unfolding(crate::specs::Solved::prismatic_prepared, crate::specs::Prismatic::prismatic_warmed, crate::specs::Prismatic::pushed_by))]
pub fn warm_start_motors(
    joint: PrismaticJoint,
    body1: RigidBody,
    body2: RigidBody,
    mut bodies: BodyPair,
    inertia1: SolverBodyInertia,
    inertia2: SolverBodyInertia,
    warm_start_motor_lagrange: f32,
    warm_start_coefficient: f32,
) -> BodyPair
    ensures { result ≡ prismatic_warm_started joint body1 body2 bodies inertia1 inertia2 warm_start_motor_lagrange warm_start_coefficient }
{
    if !joint.motor.enabled {
        return bodies;
    }
    let axis1 = bodies.body1.delta_rotation * free_axis1(joint, body1);
    let world_r1 = bodies.body1.delta_rotation * anchor_arm(body1, joint.frame1.anchor);
    let world_r2 = bodies.body2.delta_rotation * anchor_arm(body2, joint.frame2.anchor);
    let impulse = warm_start_coefficient * warm_start_motor_lagrange * axis1;
    bodies.body1.linear_velocity -= impulse * inertia1.effective_inv_mass();
    bodies.body2.linear_velocity += impulse * inertia2.effective_inv_mass();
    bodies.body1.angular_velocity -= inertia1.inv_angular_inertia * world_r1.cross(impulse);
    bodies.body2.angular_velocity += inertia2.inv_angular_inertia * world_r2.cross(impulse);
    bodies
}

// The sum begins at zero, which makes a -0 of the correction +0.
#[tactic(auto, unfolding(crate::specs::Prismatic::free_axis_correction))]
fn free_axis_correction(limits: Option<DistanceLimit>, separation: Vec3, axis1: Vec3) -> Vec3
    ensures { result ≡ free_axis_correction limits separation axis1 }
{
    let Some(limits) = limits else {
        return Vec3::ZERO;
    };
    Vec3::ZERO + limits.compute_correction_along_axis(separation, axis1)
}

// Along the free axis to its limits, along the two others to zero.
#[tactic(auto, unfolding(crate::specs::Prismatic::slide_correction))]
fn slide_correction(limits: Option<DistanceLimit>, separation: Vec3, axis1: Vec3) -> Vec3
    ensures { result ≡ slide_correction limits separation axis1 }
{
    let axis2 = axis1.any_orthogonal_vector();
    let axis3 = axis1.cross(axis2);
    free_axis_correction(limits, separation, axis1)
        + DistanceLimit::ZERO.compute_correction_along_axis(separation, axis2)
        + DistanceLimit::ZERO.compute_correction_along_axis(separation, axis3)
}

impl PrismaticJointSolverData {
    #[tactic(auto, unfolding(crate::specs::Solved::prismatic_prepared, xpbd::specs::Parts::point_prepared))]
    pub fn prepare(
        joint: PrismaticJoint,
        body1: RigidBody,
        body2: RigidBody,
    ) -> PrismaticJointSolverData
        ensures { result ≡ prismatic_prepared joint body1 body2 }
    {
        let point = PointConstraintShared::prepare(
            body1,
            body2,
            joint.frame1.anchor,
            joint.frame2.anchor,
        );
        PrismaticJointSolverData {
            world_r1: point.world_r1,
            world_r2: point.world_r2,
            center_difference: point.center_difference,
            free_axis1: free_axis1(joint, body1),
            total_position_lagrange: Vec3::ZERO,
            angle_constraint: FixedAngleConstraintShared::prepare(
                body1.rotation,
                body2.rotation,
                joint.frame1.basis,
                joint.frame2.basis,
            ),
            total_motor_lagrange: 0.0,
        }
    }

    // None where the motor is off or both bodies are as good as fixed, too.
    #[tactic(auto, unfolding(crate::specs::Prismatic::linear_motor_given, joints::specs::Motor::unless_off))]
    fn motor_lagrange(
        self,
        motor: LinearMotor,
        bodies: BodyPair,
        inertia1: SolverBodyInertia,
        inertia2: SolverBodyInertia,
        dt: f32,
    ) -> Option<f32>
        ensures { result ≡ linear_motor_given motor bodies inertia1 inertia2 self.world_r1 self.world_r2 self.center_difference self.free_axis1 dt }
    {
        if !motor.enabled {
            return None;
        }
        let axis1 = bodies.body1.delta_rotation * self.free_axis1;
        let world_r1 = bodies.body1.delta_rotation * self.world_r1;
        let world_r2 = bodies.body2.delta_rotation * self.world_r2;
        let w_sum = weight(inertia1, world_r1, axis1) + weight(inertia2, world_r2, axis1);
        if w_sum <= EPSILON {
            return None;
        }
        let separation = separation(bodies, world_r1, world_r2, self.center_difference);
        let current_velocity = (bodies.body2.linear_velocity - bodies.body1.linear_velocity).dot(
            axis1,
        );
        let velocity_error = motor.target_velocity - current_velocity;
        let position_error = motor.target_position - separation.dot(axis1);
        motor.compute_lagrange(velocity_error, position_error, w_sum, dt)
    }

    // A hinge's motor turns the bodies where this one pushes them: one for both would be handed every step that differs.
    #[tactic(auto, unfolding(crate::specs::Solved::linear_motor_stage, crate::specs::Solved::driven_along))]
    fn apply_motor(
        mut self,
        joint: PrismaticJoint,
        bodies: BodyPair,
        inertia1: SolverBodyInertia,
        inertia2: SolverBodyInertia,
        dt: f32,
    ) -> Solved<PrismaticJointSolverData>
        ensures { result ≡ driven self (linear_motor_stage joint.motor bodies inertia1 inertia2 self.world_r1 self.world_r2 self.center_difference self.free_axis1 self.total_position_lagrange self.total_motor_lagrange dt) }
    {
        let lagrange = self.motor_lagrange(joint.motor, bodies, inertia1, inertia2, dt);
        let Some(delta_lagrange) = lagrange else {
            return Solved {
                solver_data: self,
                bodies,
            };
        };
        let axis1 = bodies.body1.delta_rotation * self.free_axis1;
        let world_r1 = bodies.body1.delta_rotation * self.world_r1;
        let world_r2 = bodies.body2.delta_rotation * self.world_r2;
        let impulse = delta_lagrange * axis1;
        self.total_position_lagrange += impulse;
        self.total_motor_lagrange += delta_lagrange;
        Solved {
            solver_data: self,
            bodies: positional_impulse(bodies, inertia1, inertia2, -impulse, world_r1, world_r2),
        }
    }

    #[tactic(auto, unfolding(crate::specs::Solved::position_stage, xpbd::specs::Parts::position_corrected))]
    fn constrain_positions(
        mut self,
        joint: PrismaticJoint,
        bodies: BodyPair,
        inertia1: SolverBodyInertia,
        inertia2: SolverBodyInertia,
        dt: f32,
    ) -> Solved<PrismaticJointSolverData>
        ensures { result ≡ counted (λ t. record self { total_position_lagrange = t }) (position_stage joint.limits bodies inertia1 inertia2 self.world_r1 self.world_r2 self.center_difference self.free_axis1 self.total_position_lagrange joint.align_compliance dt) }
    {
        let axis1 = bodies.body1.delta_rotation * self.free_axis1;
        let world_r1 = bodies.body1.delta_rotation * self.world_r1;
        let world_r2 = bodies.body2.delta_rotation * self.world_r2;
        let separation = separation(bodies, world_r1, world_r2, self.center_difference);
        let delta_x = slide_correction(joint.limits, separation, axis1);
        let magnitude = delta_x.length();
        if magnitude <= EPSILON {
            return Solved {
                solver_data: self,
                bodies,
            };
        }
        let impulse = correction_impulse(
            inertia1,
            inertia2,
            world_r1,
            world_r2,
            delta_x / magnitude,
            magnitude,
            joint.align_compliance,
            dt,
        );
        self.total_position_lagrange += impulse;
        Solved {
            solver_data: self,
            bodies: positional_impulse(bodies, inertia1, inertia2, impulse, world_r1, world_r2),
        }
    }

    #[tactic(auto, unfolding(crate::specs::Solved::prismatic_solved))]
    pub fn solve(
        mut self,
        joint: PrismaticJoint,
        bodies: BodyPair,
        inertia1: SolverBodyInertia,
        inertia2: SolverBodyInertia,
        dt: f32,
    ) -> Solved<PrismaticJointSolverData>
        ensures { result ≡ prismatic_solved joint self bodies inertia1 inertia2 dt }
    {
        let angle = self.angle_constraint.solve(
            bodies,
            inertia1.inv_angular_inertia,
            inertia2.inv_angular_inertia,
            joint.angle_compliance,
            dt,
        );
        self.angle_constraint = angle.solver_data;
        // The motor before the limits, so that the limits have the last word.
        let driven = self.apply_motor(joint, angle.bodies, inertia1, inertia2, dt);
        driven
            .solver_data
            .constrain_positions(joint, driven.bodies, inertia1, inertia2, dt)
    }
}
