// A tick's linkage and state, and one body or one joint of it.
ghost use Rattle.std.specs.Prelude.{◌≡◌, true, ◌||◌, ◌<◌, length, if◌then◌else◌};
ghost use Rattle.loader.specs.Parts.{linkage_in};
ghost use Rattle.xpbd_joints.specs.Steps.{no_totals, run};
ghost use Rattle.state.specs.State.{state_length, body_at};
ghost use Rattle.tick.specs.Body.{finished_body};
ghost use Rattle.tick.specs.Joint.{overloaded};
ghost use Rattle.tick.specs.Tick.{body, joint, put, pair, rigid, setting, skipped, steps, warmed_by};
ghost use Rattle.tick.specs.Work.{result_at};

use crate::body::finish;
use crate::joint::{JointResult, overloaded, solve_joint, warm_start_joint};
use loader::linkage::Linkage;
use solver_body::{BodyPair, BodyState, RigidBody, SolverBody, SolverBodyInertia};
use state::places::{BODY_NUMBERS, JointState, Numbers, state_length};
use vector::Vec3;
use xpbd_joints::JointTotals;

// A linkage, its inertias turned, and the state that it is in.
#[derive(Clone, Copy)]
pub struct Tick<'b, 'j, 's> {
    pub linkage: Linkage<'b, 'j>,
    pub state: &'s [f32],
    pub ghost sized: { length state.now ≡ state_length (length linkage.bodies.now) (length linkage.joints.now) },
}

impl<'b, 'j, 's> Tick<'b, 'j, 's> {
    // Whether the state has a joint broken: the tick passes it over.
    #[tactic(auto, unfolding(state::specs::State::broken_at))]
    pub fn skipped(&self, j: usize) -> bool
        requires { j < length self.now.linkage.joints.now }
        ensures { result ≡ skipped (linkage_in self.now.linkage) self.now.state.now j }
    {
        let at = state_length(self.linkage.bodies.len(), j);
        JointState::read(self.state, at).broken
    }

    // Whether a joint is broken after the tick, which gave it this first total.
    pub fn broken(&self, j: usize, first: Vec3) -> bool
        requires { j < length self.now.linkage.joints.now }
        ensures { result ≡ (skipped (linkage_in self.now.linkage) self.now.state.now j || overloaded (joint (linkage_in self.now.linkage) j).breaking_load first self.now.linkage.dt) }
    {
        let load = self.linkage.joints[j].breaking_load;
        self.skipped(j) || overloaded(load, first, self.linkage.dt)
    }
}

#[derive(Clone, Copy)]
pub struct BodyAt<'b, 'j, 's> {
    pub tick: Tick<'b, 'j, 's>,
    pub i: usize,
    pub ghost inside: { i < length tick.linkage.bodies.now },
}

impl<'b, 'j, 's> BodyAt<'b, 'j, 's> {
    // Where the state has it.
    fn rigid(&self) -> RigidBody
        ensures { result ≡ rigid (linkage_in self.now.tick.linkage) self.now.tick.state.now self.now.i }
    {
        let b = BodyState::read(self.tick.state, BODY_NUMBERS * self.i);
        RigidBody {
            position: b.position,
            rotation: b.rotation,
            center_of_mass: self.tick.linkage.bodies[self.i].center_of_mass,
        }
    }

    pub fn inertia(&self) -> SolverBodyInertia
        ensures { result ≡ (body (linkage_in self.now.tick.linkage) self.now.i).inertia }
    {
        self.tick.linkage.bodies[self.i].inertia
    }

    // An anchored body's place keeps the dummy.
    pub fn put(&self, b: SolverBody, bodies: &mut [SolverBody])
        requires { length bodies.old ≡ length self.now.tick.linkage.bodies.now }
        ensures { bodies.new ≡ put (linkage_in self.now.tick.linkage) self.now.i b bodies.old }
    {
        if !self.tick.linkage.bodies[self.i].anchored {
            bodies[self.i] = b;
        }
    }

    // Its new numbers: an anchored one's stay.
    pub fn finish(&self, pre_solve: SolverBody, b: SolverBody) -> BodyState
        ensures { result ≡ (if (body (linkage_in self.now.tick.linkage) self.now.i).anchored then body_at self.now.tick.state.now self.now.i else finished_body (rigid (linkage_in self.now.tick.linkage) self.now.tick.state.now self.now.i) pre_solve b self.now.tick.linkage.dt) }
    {
        if self.tick.linkage.bodies[self.i].anchored {
            return BodyState::read(self.tick.state, BODY_NUMBERS * self.i);
        }
        finish(self.rigid(), pre_solve, b, self.tick.linkage.dt)
    }
}

// With the solver's bodies as the joint finds them.
#[derive(Clone, Copy)]
pub struct JointAt<'b, 'j, 's, 'w> {
    pub tick: Tick<'b, 'j, 's>,
    pub bodies: &'w [SolverBody],
    pub j: usize,
    pub ghost inside: { j < length tick.linkage.joints.now },
    pub ghost whole: { length bodies.now ≡ length tick.linkage.bodies.now },
}

impl<'b, 'j, 's, 'w> JointAt<'b, 'j, 's, 'w> {
    // One for each of the joint's two bodies, as its record names them.
    pub fn first(&self) -> BodyAt<'b, 'j, 's>
        ensures { (result.tick ≡ self.now.tick) × (result.i ≡ (joint (linkage_in self.now.tick.linkage) self.now.j).body1) }
    {
        BodyAt {
            tick: self.tick,
            i: self.tick.linkage.joints[self.j].body1,
        }
    }

    pub fn second(&self) -> BodyAt<'b, 'j, 's>
        ensures { (result.tick ≡ self.now.tick) × (result.i ≡ (joint (linkage_in self.now.tick.linkage) self.now.j).body2) }
    {
        BodyAt {
            tick: self.tick,
            i: self.tick.linkage.joints[self.j].body2,
        }
    }

    fn pair(&self) -> BodyPair
        ensures { result ≡ pair (linkage_in self.now.tick.linkage) self.now.j self.now.bodies.now }
    {
        BodyPair {
            body1: self.bodies[self.first().i],
            body2: self.bodies[self.second().i],
        }
    }

    pub fn warmed(&self) -> BodyPair
        ensures { result ≡ warmed_by (linkage_in self.now.tick.linkage) self.now.tick.state.now self.now.j self.now.bodies.now }
    {
        let linkage = self.tick.linkage;
        let first = self.first();
        let second = self.second();
        let at = state_length(linkage.bodies.len(), self.j);
        warm_start_joint(
            linkage.joints[self.j].joint,
            first.rigid(),
            second.rigid(),
            JointTotals::read(self.tick.state, at),
            self.pair(),
            first.inertia(),
            second.inertia(),
            linkage.warm_coefficient,
            linkage.dt,
        )
    }

    pub fn solved(&self) -> JointResult
        ensures { result ≡ result_at (linkage_in self.now.tick.linkage) self.now.tick.state.now self.now.j (run (setting (linkage_in self.now.tick.linkage) true self.now.j) (steps (linkage_in self.now.tick.linkage) self.now.tick.state.now self.now.j) (record { bodies = pair (linkage_in self.now.tick.linkage) self.now.j self.now.bodies.now; totals = no_totals })) }
    {
        let linkage = self.tick.linkage;
        let first = self.first();
        let second = self.second();
        solve_joint(
            linkage.joints[self.j].joint,
            first.rigid(),
            second.rigid(),
            self.pair(),
            first.inertia(),
            second.inertia(),
            linkage.dt,
        )
    }
}
