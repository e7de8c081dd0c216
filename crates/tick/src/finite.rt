// Whether a value's numbers are finite.
// Tests are joined by `&` and not by `&&`: a proof has no cases then, and where all numbers are finite each is looked at anyway.
ghost use Rattle.std.specs.Prelude.{◌≡◌, List, ◌++◌, Float};
ghost use Rattle.scalar.specs.Scalar.{is_finite};
ghost use Rattle.numbers.specs.Lists.{all};
ghost use Rattle.numbers.specs.Numbers.{numbers3, numbers4, numbers6};
ghost use Rattle.state.specs.State.{totals_numbers};
ghost use Rattle.tick.specs.Joint.{arm_numbers, solver_numbers};
ghost use Rattle.tick.specs.Parts.{point_numbers, four_numbers};

use scalar::is_finite;
use solver_body::SolverBody;
use vector::{Quat, SymmetricTensor, Vec3};
use xpbd::point_constraint::PointConstraintShared;
use xpbd_joints::JointTotals;
use xpbd_joints::distance::DistanceJointSolverData;
use xpbd_joints::fixed::FixedJointSolverData;
use xpbd_joints::prismatic::PrismaticJointSolverData;
use xpbd_joints::revolute::RevoluteJointSolverData;
use xpbd_joints::spherical::SphericalJointSolverData;

pub trait Finite {
    ghost numbers: { Self → List Float };

    fn finite(self) -> bool
        ensures { result ≡ all is_finite (numbers self) };
}

impl Finite for Vec3 {
    ghost numbers = { numbers3 };

    fn finite(self) -> bool {
        is_finite(self.x) & is_finite(self.y) & is_finite(self.z)
    }
}

impl Finite for Quat {
    ghost numbers = { numbers4 };

    fn finite(self) -> bool {
        is_finite(self.x) & is_finite(self.y) & is_finite(self.z) & is_finite(self.w)
    }
}

impl Finite for SymmetricTensor {
    ghost numbers = { numbers6 };

    fn finite(self) -> bool {
        is_finite(self.xx)
            & is_finite(self.xy)
            & is_finite(self.xz)
            & is_finite(self.yy)
            & is_finite(self.yz)
            & is_finite(self.zz)
    }
}

impl<A: Finite + Copy, B: Finite + Copy> Finite for (A, B) {
    ghost numbers = { λ v. A.numbers v.0 ++ B.numbers v.1 };

    #[tactic(auto, using(crate::proofs::All::both))]
    fn finite(self) -> bool {
        self.0.finite() & self.1.finite()
    }
}

impl<A: Finite + Copy, B: Finite + Copy, C: Finite + Copy> Finite for (A, B, C) {
    ghost numbers = { λ v. A.numbers v.0 ++ B.numbers v.1 ++ C.numbers v.2 };

    #[tactic(auto, using(crate::proofs::All::three))]
    fn finite(self) -> bool {
        self.0.finite() & self.1.finite() & self.2.finite()
    }
}

impl<A: Finite + Copy, B: Finite + Copy, C: Finite + Copy, D: Finite + Copy> Finite
    for (A, B, C, D) {
    ghost numbers = { λ v. A.numbers v.0 ++ B.numbers v.1 ++ C.numbers v.2 ++ D.numbers v.3 };

    #[tactic(auto, using(crate::proofs::All::four))]
    fn finite(self) -> bool {
        self.0.finite() & self.1.finite() & self.2.finite() & self.3.finite()
    }
}

impl Finite for PointConstraintShared {
    ghost numbers = { point_numbers };

    fn finite(self) -> bool {
        (self.world_r1, self.world_r2, self.center_difference).finite()
    }
}

// Of what a joint prepared, the totals are no part.
impl Finite for FixedJointSolverData {
    ghost numbers = { λ d. point_numbers d.point_constraint ++ numbers4 d.angle_constraint.rotation_difference };

    fn finite(self) -> bool {
        (
            self.point_constraint,
            self.angle_constraint.rotation_difference,
        )
            .finite()
    }
}

impl Finite for RevoluteJointSolverData {
    ghost numbers = { λ d. point_numbers d.point_constraint ++ four_numbers d.a1 d.a2 d.b1 d.b2 };

    fn finite(self) -> bool {
        (self.point_constraint, (self.a1, self.a2, self.b1, self.b2)).finite()
    }
}

impl Finite for PrismaticJointSolverData {
    ghost numbers = { λ d. arm_numbers d.world_r1 d.world_r2 d.center_difference ++ numbers3 d.free_axis1 ++ numbers4 d.angle_constraint.rotation_difference };

    fn finite(self) -> bool {
        (
            (self.world_r1, self.world_r2, self.center_difference),
            self.free_axis1,
            self.angle_constraint.rotation_difference,
        )
            .finite()
    }
}

impl Finite for SphericalJointSolverData {
    ghost numbers = { λ d. point_numbers d.point_constraint ++ four_numbers d.swing_axis1 d.swing_axis2 d.twist_axis1 d.twist_axis2 };

    fn finite(self) -> bool {
        (
            self.point_constraint,
            (
                self.swing_axis1,
                self.swing_axis2,
                self.twist_axis1,
                self.twist_axis2,
            ),
        )
            .finite()
    }
}

impl Finite for DistanceJointSolverData {
    ghost numbers = { λ d. arm_numbers d.world_r1 d.world_r2 d.center_difference };

    fn finite(self) -> bool {
        (self.world_r1, self.world_r2, self.center_difference).finite()
    }
}

impl Finite for JointTotals {
    ghost numbers = { totals_numbers };

    fn finite(self) -> bool {
        (self.first, self.second, self.third, self.fourth).finite()
    }
}

// Velocities and deltas.
impl Finite for SolverBody {
    ghost numbers = { solver_numbers };

    fn finite(self) -> bool {
        (
            self.linear_velocity,
            self.angular_velocity,
            self.delta_position,
            self.delta_rotation,
        )
            .finite()
    }
}
