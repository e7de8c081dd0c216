// Bodies as the solver sees them: masses, locks and the dummy (src/dynamics/solver/solver_body/mod.rs).
#![tactic(auto)]

ghost use Rattle.std.specs.Prelude.{◌≡◌};
ghost use Rattle.solver_body.specs.Body.{solver_body_of, unlocked, unlocked_axes, effective_inv_mass};
ghost use Rattle.solver_body.specs.Parts.{is_valid};

use vector::{Quat, SymmetricTensor, Vec3};

// The largest size of a position's coordinate: refusals 12 and 13.
pub const POSITION_BOUND: f32 = 4096.0;

// What a joint's `prepare` reads of a body.
#[derive(Clone, Copy)]
pub struct RigidBody {
    pub position: Vec3,
    pub rotation: Quat,
    pub center_of_mass: Vec3,
}

// A body's 13 numbers: in the state, and in the card for the start.
#[derive(Clone, Copy)]
pub struct BodyState {
    pub position: Vec3,
    pub rotation: Quat,
    pub linear_velocity: Vec3,
    pub angular_velocity: Vec3,
}

// A body's velocities, and how far it was moved and turned since the step began.
#[derive(Clone, Copy)]
pub struct SolverBody {
    pub linear_velocity: Vec3,
    pub angular_velocity: Vec3,
    pub delta_position: Vec3,
    pub delta_rotation: Quat,
}

impl From<BodyState> for SolverBody {
    ghost from_gives = { λ state b. b ≡ solver_body_of state };

    #[tactic(auto, unfolding(crate::specs::Body::solver_body_of))]
    fn from(state: BodyState) -> SolverBody {
        SolverBody {
            linear_velocity: state.linear_velocity,
            angular_velocity: state.angular_velocity,
            delta_position: Vec3::ZERO,
            delta_rotation: Quat::IDENTITY,
        }
    }
}

#[derive(Clone, Copy)]
pub struct BodyPair {
    pub body1: SolverBody,
    pub body2: SolverBody,
}

impl SolverBody {
    // An anchored body.
    pub const DUMMY: SolverBody = SolverBody {
        linear_velocity: Vec3::ZERO,
        angular_velocity: Vec3::ZERO,
        delta_position: Vec3::ZERO,
        delta_rotation: Quat::IDENTITY,
    };
}

#[derive(Clone, Copy)]
pub struct SolverBodyInertia {
    pub inv_mass: f32,
    // In world axes.
    pub inv_angular_inertia: SymmetricTensor,
    pub translation_x_locked: bool,
    pub translation_y_locked: bool,
    pub translation_z_locked: bool,
}

// Nothing moves along a locked axis.
#[tactic(auto, unfolding(crate::specs::Body::unlocked))]
fn unlocked(locked: bool, value: f32) -> f32
    ensures { result ≡ unlocked locked value }
{
    if locked { 0.0 } else { value }
}

impl SolverBodyInertia {
    // An anchored body: nothing moves it.
    pub const DUMMY: SolverBodyInertia = SolverBodyInertia {
        inv_mass: 0.0,
        inv_angular_inertia: SymmetricTensor::ZERO,
        translation_x_locked: false,
        translation_y_locked: false,
        translation_z_locked: false,
    };

    pub fn unlocked_axes(self, v: Vec3) -> Vec3
        ensures { result ≡ unlocked_axes self v }
    {
        Vec3 {
            x: unlocked(self.translation_x_locked, v.x),
            y: unlocked(self.translation_y_locked, v.y),
            z: unlocked(self.translation_z_locked, v.z),
        }
    }

    #[tactic(auto, unfolding(crate::specs::Body::effective_inv_mass))]
    pub fn effective_inv_mass(self) -> Vec3
        ensures { result ≡ effective_inv_mass self }
    {
        self.unlocked_axes(Vec3 {
            x: self.inv_mass,
            y: self.inv_mass,
            z: self.inv_mass,
        })
    }
}

// Where a body stands among the solver's bodies.
#[derive(Clone, Copy)]
pub struct SolverBodyIndex(pub u32);

impl SolverBodyIndex {
    // An anchored body has no place there: a constant of its type, as document 01 has it.
    pub const INVALID: SolverBodyIndex = SolverBodyIndex(u32::MAX);

    pub fn is_valid(self) -> bool
        ensures { result ≡ is_valid self }
    {
        self.0 != u32::MAX
    }
}
