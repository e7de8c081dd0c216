// The numbers of a body and of a joint in the state: how many, where, and how they are read and written.
ghost use Rattle.std.specs.Prelude.{ℕ, List, Float, ◌≡◌, ◌+◌, ◌≤◌, ◌<◌, ◌^◌, length};
ghost use Rattle.std.proofs.lemmas.List.Edits.{sets};
ghost use Rattle.numbers.specs.Numbers.{numbers3, numbers4, vec3_in, quat_in};
ghost use Rattle.state.specs.State.{body_numbers, total_numbers, joint_numbers, state_length, body_from, totals_from, joint_from, numbers_of, totals_numbers, joint_numbers_of};

use solver_body::BodyState;
use vector::{Quat, Vec3};
use xpbd_joints::JointTotals;

pub const BODY_NUMBERS: usize = 13;

// A joint's mark stands behind them.
pub const TOTAL_NUMBERS: usize = 12;

pub const JOINT_NUMBERS: usize = 13;

// The state of 255 bodies and 255 joints: no card has more of either.
pub const LARGEST: usize = (BODY_NUMBERS + JOINT_NUMBERS) * 255;

// What a tick leaves of a joint: its totals, and whether it is broken.
#[derive(Clone, Copy)]
pub struct JointState {
    pub totals: JointTotals,
    pub broken: bool,
}

// Of so many bodies and joints; also where joint j's numbers begin, behind so many bodies.
pub fn state_length(bodies: usize, joints: usize) -> usize
    requires { state_length bodies joints < 2 ^ 64 }
    ensures { result ≡ state_length bodies joints }
{
    BODY_NUMBERS * bodies + JOINT_NUMBERS * joints
}

// Values that are so many numbers in a row.
pub trait Numbers {
    ghost count: { ℕ };

    ghost numbers: { Self → List Float };

    ghost read_from: { List Float → ℕ → Self };

    fn read(s: &[f32], at: usize) -> Self
        requires { at + count ≤ length s.now }
        ensures { result ≡ read_from s.now at };

    fn write(self, s: &mut [f32], at: usize)
        requires { at + count ≤ length s.old }
        ensures { s.new ≡ sets s.old at (numbers self) };
}

impl Numbers for Vec3 {
    ghost count = { 3 };

    ghost numbers = { numbers3 };

    ghost read_from = { vec3_in };

    fn read(s: &[f32], at: usize) -> Vec3 {
        Vec3 {
            x: s[at],
            y: s[at + 1],
            z: s[at + 2],
        }
    }

    fn write(self, s: &mut [f32], at: usize) {
        s[at] = self.x;
        s[at + 1] = self.y;
        s[at + 2] = self.z;
    }
}

impl Numbers for Quat {
    ghost count = { 4 };

    ghost numbers = { numbers4 };

    ghost read_from = { quat_in };

    fn read(s: &[f32], at: usize) -> Quat {
        Quat {
            x: s[at],
            y: s[at + 1],
            z: s[at + 2],
            w: s[at + 3],
        }
    }

    fn write(self, s: &mut [f32], at: usize) {
        s[at] = self.x;
        s[at + 1] = self.y;
        s[at + 2] = self.z;
        s[at + 3] = self.w;
    }
}

impl Numbers for BodyState {
    ghost count = { body_numbers };

    ghost numbers = { numbers_of };

    ghost read_from = { body_from };

    #[tactic(auto, unfolding(crate::specs::State::body_from))]
    fn read(s: &[f32], at: usize) -> BodyState {
        BodyState {
            position: Vec3::read(s, at),
            rotation: Quat::read(s, at + 3),
            linear_velocity: Vec3::read(s, at + 7),
            angular_velocity: Vec3::read(s, at + 10),
        }
    }

    fn write(self, s: &mut [f32], at: usize) {
        self.position.write(s, at);
        self.rotation.write(s, at + 3);
        self.linear_velocity.write(s, at + 7);
        self.angular_velocity.write(s, at + 10);
    }
}

impl Numbers for JointTotals {
    ghost count = { total_numbers };

    ghost numbers = { totals_numbers };

    ghost read_from = { totals_from };

    #[tactic(auto, unfolding(crate::specs::State::totals_from))]
    fn read(s: &[f32], at: usize) -> JointTotals {
        JointTotals {
            first: Vec3::read(s, at),
            second: Vec3::read(s, at + 3),
            third: Vec3::read(s, at + 6),
            fourth: Vec3::read(s, at + 9),
        }
    }

    fn write(self, s: &mut [f32], at: usize) {
        self.first.write(s, at);
        self.second.write(s, at + 3);
        self.third.write(s, at + 6);
        self.fourth.write(s, at + 9);
    }
}

impl Numbers for JointState {
    ghost count = { joint_numbers };

    ghost numbers = { joint_numbers_of };

    ghost read_from = { joint_from };

    fn read(s: &[f32], at: usize) -> JointState {
        JointState {
            totals: JointTotals::read(s, at),
            broken: s[at + TOTAL_NUMBERS] == 1.0,
        }
    }

    fn write(self, s: &mut [f32], at: usize) {
        self.totals.write(s, at);
        s[at + TOTAL_NUMBERS] = if self.broken { 1.0 } else { 0.0 };
    }
}
