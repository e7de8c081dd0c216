// A kind of joint as a tick solves it (the trait of src/dynamics/solver/xpbd/mod.rs): what it prepares, its solve and its totals.
ghost use Rattle.std.specs.Prelude.{◌≡◌, Float};
ghost use Rattle.scalar.specs.Arith.{f0};
ghost use Rattle.vector.specs.Vector.{origin};
ghost use Rattle.joints.specs.Reach.{InReach, EachAngleLimit};
ghost use Rattle.joints.specs.declared.Joint.{Joint};
ghost use Rattle.joints.specs.declared.Joint.TheVariants as kind;
ghost use Rattle.solver_body.specs.declared.RigidBody.{RigidBody};
ghost use Rattle.solver_body.specs.declared.SolverBodyInertia.{SolverBodyInertia};
ghost use Rattle.solver_body.specs.declared.BodyPair.{BodyPair};
ghost use Rattle.xpbd.specs.declared.Solved.{Solved};
ghost use Rattle.xpbd_joints.specs.declared.JointTotals.{JointTotals};
ghost use Rattle.xpbd_joints.specs.Steps.{totals};
ghost use Rattle.xpbd_joints.specs.Solved.{fixed_prepared, revolute_prepared, prismatic_prepared, spherical_prepared, distance_prepared};
ghost use Rattle.xpbd_joints.specs.Solved.{fixed_solved, revolute_solved, prismatic_solved, spherical_solved, distance_solved};
ghost use Rattle.xpbd_joints.proofs.Same.{fixed_is, revolute_is, prismatic_is, spherical_is, distance_is};
ghost use Rattle.tick.specs.Joint.{prepared_numbers};
ghost use Rattle.tick.specs.Parts.{run_with};

use crate::finite::Finite;
use joints::Joint;
use joints::distance::DistanceJoint;
use joints::fixed::FixedJoint;
use joints::prismatic::PrismaticJoint;
use joints::revolute::RevoluteJoint;
use joints::spherical::SphericalJoint;
use solver_body::{BodyPair, RigidBody, SolverBodyInertia};
use vector::Vec3;
use xpbd::Solved;
use xpbd_joints::JointTotals;
use xpbd_joints::distance::DistanceJointSolverData;
use xpbd_joints::fixed::FixedJointSolverData;
use xpbd_joints::prismatic::PrismaticJointSolverData;
use xpbd_joints::revolute::RevoluteJointSolverData;
use xpbd_joints::spherical::SphericalJointSolverData;

// Each impl hands `prepare` and `solve` on to the kind's own solver data: a default method would need a trait of these that says the same three calls again.
pub trait XpbdConstraint: Copy {
    type SolverData: Finite + Copy;

    // As one of all joints.
    ghost joint: { Self → Joint };

    ghost prepared: { Self → RigidBody → RigidBody → Self.SolverData };

    ghost solved: { Self → Self.SolverData → BodyPair → SolverBodyInertia → SolverBodyInertia → Float → Solved Self.SolverData };

    ghost totals_of: { Self.SolverData → JointTotals };

    fn prepare(self, body1: RigidBody, body2: RigidBody) -> Self::SolverData
        ensures gives { result ≡ prepared self body1 body2 }
        ensures numbers { Self.SolverData.numbers result ≡ prepared_numbers (joint self) body1 body2 };

    fn solve(
        self,
        solver_data: Self::SolverData,
        bodies: BodyPair,
        inertia1: SolverBodyInertia,
        inertia2: SolverBodyInertia,
        dt: f32,
    ) -> Solved<Self::SolverData>
        requires { EachAngleLimit InReach (joint self) }
        ensures { result ≡ solved self solver_data bodies inertia1 inertia2 dt };

    fn totals(solver_data: Self::SolverData) -> JointTotals
        ensures { result ≡ totals_of solver_data };

    // Prepared and then solved it has run its steps.
    ghost runs: { (j : Self) (b₁ b₂ : RigidBody) (b : BodyPair) (i₁ i₂ : SolverBodyInertia) (h : Float) → let s = solved j (prepared j b₁ b₂) b i₁ i₂ h in run_with (joint j) b₁ b₂ b i₁ i₂ h ≡ record { bodies = s.bodies; totals = totals_of s.solver_data } };
}

impl XpbdConstraint for FixedJoint {
    type SolverData = FixedJointSolverData;

    ghost joint = { kind.Fixed };

    ghost prepared = { fixed_prepared };

    ghost solved = { fixed_solved };

    ghost totals_of = { λ d. totals d.point_constraint.total_lagrange d.angle_constraint.total_lagrange origin origin };

    ghost runs = { λ j b₁ b₂ b i₁ i₂ h. fixed_is i₁ i₂ h b₁ b₂ b j };

    #[tactic(auto, unfolding(crate::specs::Joint::prepared_numbers, xpbd_joints::specs::Solved::fixed_prepared, xpbd::specs::Parts::point_prepared, xpbd::specs::Parts::angle_prepared))]
    fn prepare(self, body1: RigidBody, body2: RigidBody) -> FixedJointSolverData {
        FixedJointSolverData::prepare(self, body1, body2)
    }

    fn solve(
        self,
        solver_data: FixedJointSolverData,
        bodies: BodyPair,
        inertia1: SolverBodyInertia,
        inertia2: SolverBodyInertia,
        dt: f32,
    ) -> Solved<FixedJointSolverData> {
        solver_data.solve(self, bodies, inertia1, inertia2, dt)
    }

    fn totals(solver_data: FixedJointSolverData) -> JointTotals {
        JointTotals {
            first: solver_data.point_constraint.total_lagrange,
            second: solver_data.angle_constraint.total_lagrange,
            ..JointTotals::ZERO
        }
    }
}

impl XpbdConstraint for RevoluteJoint {
    type SolverData = RevoluteJointSolverData;

    ghost joint = { kind.Revolute };

    ghost prepared = { revolute_prepared };

    ghost solved = { revolute_solved };

    ghost totals_of = { λ d. totals d.point_constraint.total_lagrange d.total_align_lagrange d.total_limit_lagrange d.total_motor_lagrange };

    ghost runs = { λ j b₁ b₂ b i₁ i₂ h. revolute_is i₁ i₂ h b₁ b₂ b j };

    #[tactic(auto, unfolding(crate::specs::Joint::prepared_numbers, xpbd_joints::specs::Solved::revolute_prepared, xpbd::specs::Parts::point_prepared))]
    fn prepare(self, body1: RigidBody, body2: RigidBody) -> RevoluteJointSolverData {
        RevoluteJointSolverData::prepare(self, body1, body2)
    }

    fn solve(
        self,
        solver_data: RevoluteJointSolverData,
        bodies: BodyPair,
        inertia1: SolverBodyInertia,
        inertia2: SolverBodyInertia,
        dt: f32,
    ) -> Solved<RevoluteJointSolverData> {
        solver_data.solve(self, bodies, inertia1, inertia2, dt)
    }

    fn totals(solver_data: RevoluteJointSolverData) -> JointTotals {
        JointTotals {
            first: solver_data.point_constraint.total_lagrange,
            second: solver_data.total_align_lagrange,
            third: solver_data.total_limit_lagrange,
            fourth: solver_data.total_motor_lagrange,
        }
    }
}

impl XpbdConstraint for PrismaticJoint {
    type SolverData = PrismaticJointSolverData;

    ghost joint = { kind.Prismatic };

    ghost prepared = { prismatic_prepared };

    ghost solved = { prismatic_solved };

    ghost totals_of = { λ d. totals d.total_position_lagrange d.angle_constraint.total_lagrange (record { x = d.total_motor_lagrange; y = f0; z = f0 }) origin };

    ghost runs = { λ j b₁ b₂ b i₁ i₂ h. prismatic_is i₁ i₂ h b₁ b₂ b j };

    #[tactic(auto, unfolding(crate::specs::Joint::prepared_numbers, xpbd_joints::specs::Solved::prismatic_prepared, xpbd::specs::Parts::angle_prepared))]
    fn prepare(self, body1: RigidBody, body2: RigidBody) -> PrismaticJointSolverData {
        PrismaticJointSolverData::prepare(self, body1, body2)
    }

    fn solve(
        self,
        solver_data: PrismaticJointSolverData,
        bodies: BodyPair,
        inertia1: SolverBodyInertia,
        inertia2: SolverBodyInertia,
        dt: f32,
    ) -> Solved<PrismaticJointSolverData> {
        solver_data.solve(self, bodies, inertia1, inertia2, dt)
    }

    fn totals(solver_data: PrismaticJointSolverData) -> JointTotals {
        JointTotals {
            first: solver_data.total_position_lagrange,
            second: solver_data.angle_constraint.total_lagrange,
            third: Vec3 {
                x: solver_data.total_motor_lagrange,
                ..Vec3::ZERO
            },
            ..JointTotals::ZERO
        }
    }
}

impl XpbdConstraint for SphericalJoint {
    type SolverData = SphericalJointSolverData;

    ghost joint = { kind.Spherical };

    ghost prepared = { spherical_prepared };

    ghost solved = { spherical_solved };

    ghost totals_of = { λ d. totals d.point_constraint.total_lagrange d.total_swing_lagrange d.total_twist_lagrange origin };

    ghost runs = { λ j b₁ b₂ b i₁ i₂ h. spherical_is i₁ i₂ h b₁ b₂ b j };

    #[tactic(auto, unfolding(crate::specs::Joint::prepared_numbers, xpbd_joints::specs::Solved::spherical_prepared, xpbd_joints::specs::Solved::matrix_point))]
    fn prepare(self, body1: RigidBody, body2: RigidBody) -> SphericalJointSolverData {
        SphericalJointSolverData::prepare(self, body1, body2)
    }

    fn solve(
        self,
        solver_data: SphericalJointSolverData,
        bodies: BodyPair,
        inertia1: SolverBodyInertia,
        inertia2: SolverBodyInertia,
        dt: f32,
    ) -> Solved<SphericalJointSolverData> {
        solver_data.solve(self, bodies, inertia1, inertia2, dt)
    }

    fn totals(solver_data: SphericalJointSolverData) -> JointTotals {
        JointTotals {
            first: solver_data.point_constraint.total_lagrange,
            second: solver_data.total_swing_lagrange,
            third: solver_data.total_twist_lagrange,
            ..JointTotals::ZERO
        }
    }
}

impl XpbdConstraint for DistanceJoint {
    type SolverData = DistanceJointSolverData;

    ghost joint = { kind.Distance };

    ghost prepared = { distance_prepared };

    ghost solved = { distance_solved };

    ghost totals_of = { λ d. totals d.total_lagrange origin origin origin };

    ghost runs = { λ j b₁ b₂ b i₁ i₂ h. distance_is i₁ i₂ h b₁ b₂ b j };

    #[tactic(auto, unfolding(crate::specs::Joint::prepared_numbers, xpbd_joints::specs::Solved::distance_prepared))]
    fn prepare(self, body1: RigidBody, body2: RigidBody) -> DistanceJointSolverData {
        DistanceJointSolverData::prepare(self, body1, body2)
    }

    fn solve(
        self,
        solver_data: DistanceJointSolverData,
        bodies: BodyPair,
        inertia1: SolverBodyInertia,
        inertia2: SolverBodyInertia,
        dt: f32,
    ) -> Solved<DistanceJointSolverData> {
        solver_data.solve(self, bodies, inertia1, inertia2, dt)
    }

    fn totals(solver_data: DistanceJointSolverData) -> JointTotals {
        JointTotals {
            first: solver_data.total_lagrange,
            ..JointTotals::ZERO
        }
    }
}
