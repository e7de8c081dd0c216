// The steps of a tick, each over all bodies or joints of a linkage. A tick reads its state and writes the new one beside it. The loops go by index: each writes to a place of
// a slice that it also reads, or beside the one that it reads, and after an adapter of `iter_mut` a proof knows nothing of a slice.
ghost use Rattle.std.specs.Prelude.{◌≡◌, ◌*◌, true, false, drop, length, IfOk, IfErr};
ghost use Rattle.numbers.specs.Lists.{each};
ghost use Rattle.loader.specs.Parts.{linkage_in};
ghost use Rattle.state.specs.State.{body_numbers, totals_at};
ghost use Rattle.tick.specs.Tick.{loaded, warm_started, pre_solve_of, solved, new_state};
ghost use Rattle.tick.specs.Work.{driven, solved_in, new_joints};

use crate::body::integrate;
use crate::linked::{BodyAt, JointAt, Tick};
use joints::Joint;
use solver_body::{BodyState, SolverBody};
use state::places::{BODY_NUMBERS, JointState, Numbers, state_length};
use xpbd_joints::JointTotals;

// Refusal 13.
#[derive(Clone, Copy)]
pub struct Stopped;

// A joint without a motor has nothing to warm.
fn driven(joint: &Joint) -> bool
    ensures { result ≡ driven joint.now }
{
    match joint {
        Joint::Revolute(revolute) => revolute.motor.enabled,
        Joint::Prismatic(prismatic) => prismatic.motor.enabled,
        _ => false,
    }
}

impl<'b, 'j, 's> Tick<'b, 'j, 's> {
    // The solver's bodies, as the state has them.
    pub fn load_bodies(&self, bodies: &mut [SolverBody])
        requires { length bodies.old ≡ length self.now.linkage.bodies.now }
        ensures { bodies.new ≡ loaded (linkage_in self.now.linkage) self.now.state.now }
    {
        bodies.fill(SolverBody::DUMMY);
        for i in 0..bodies.len() {
            let loaded = SolverBody::from(BodyState::read(self.state, BODY_NUMBERS * i));
            BodyAt { tick: *self, i }.put(loaded, bodies);
        }
    }

    // The motors' warm start.
    pub fn warm_start(&self, bodies: &mut [SolverBody])
        requires { bodies.old ≡ loaded (linkage_in self.now.linkage) self.now.state.now }
        ensures { bodies.new ≡ warm_started (linkage_in self.now.linkage) self.now.state.now }
    {
        for j in 0..self.linkage.joints.len() {
            if self.skipped(j) {
                continue;
            }
            if driven(&self.linkage.joints[j].joint) {
                let joint = JointAt {
                    tick: *self,
                    bodies,
                    j,
                };
                let first = joint.first();
                let second = joint.second();
                let warmed = joint.warmed();
                first.put(warmed.body1, bodies);
                second.put(warmed.body2, bodies);
            }
        }
    }

    // Gravity, the locks, and the deltas of the velocities.
    pub fn integrate_bodies(&self, bodies: &mut [SolverBody])
        requires { bodies.old ≡ warm_started (linkage_in self.now.linkage) self.now.state.now }
        ensures { bodies.new ≡ pre_solve_of (linkage_in self.now.linkage) self.now.state.now }
    {
        for i in 0..bodies.len() {
            let at = BodyAt { tick: *self, i };
            let b = integrate(
                bodies[i],
                at.inertia(),
                self.linkage.gravity,
                self.linkage.dt,
            );
            at.put(b, bodies);
        }
    }

    // The joints that are whole, in card order, from totals of zero.
    pub fn solve_joints(&self, bodies: &mut [SolverBody], new: &mut [f32]) -> Result<(), Stopped>
        requires { (bodies.old ≡ pre_solve_of (linkage_in self.now.linkage) self.now.state.now) × (length new.old ≡ length self.now.state.now) }
        ensures solved { IfOk result (λ _. solved_in (linkage_in self.now.linkage) bodies.new new.new ≡ solved (linkage_in self.now.linkage) self.now.state.now) }
        ensures stopped { IfErr result (λ _. (solved (linkage_in self.now.linkage) self.now.state.now).finite ≡ false) }
    {
        let joints = self.linkage.joints.len();
        new.fill(0.0);
        for j in 0..joints {
            if self.skipped(j) {
                continue;
            }
            let joint = JointAt {
                tick: *self,
                bodies,
                j,
            };
            let first = joint.first();
            let second = joint.second();
            let solved = joint.solved();
            if !solved.finite {
                return Err(Stopped);
            }
            first.put(solved.bodies.body1, bodies);
            second.put(solved.bodies.body2, bodies);
            let at = state_length(self.linkage.bodies.len(), j);
            solved.totals.write(new, at);
        }
        Ok(())
    }

    // What the tick leaves of the joints: one that breaks keeps the totals that broke it.
    pub fn mark_joints(&self, new: &mut [f32])
        requires { (each (totals_at (length self.now.linkage.bodies.now) new.old) (length self.now.linkage.joints.now) ≡ (solved (linkage_in self.now.linkage) self.now.state.now).totals) × (length new.old ≡ length self.now.state.now) }
        ensures { drop (body_numbers * length self.now.linkage.bodies.now) new.new ≡ new_joints (linkage_in self.now.linkage) self.now.state.now }
    {
        for j in 0..self.linkage.joints.len() {
            let at = state_length(self.linkage.bodies.len(), j);
            let totals = JointTotals::read(new, at);
            let broken = self.broken(j, totals.first);
            JointState { totals, broken }.write(new, at);
        }
    }

    // The bodies' new numbers, before the joints'.
    pub fn finish_bodies(&self, pre_solve: &[SolverBody], bodies: &[SolverBody], new: &mut [f32])
        requires { (pre_solve.now ≡ pre_solve_of (linkage_in self.now.linkage) self.now.state.now) × (bodies.now ≡ (solved (linkage_in self.now.linkage) self.now.state.now).bodies) × (drop (body_numbers * length self.now.linkage.bodies.now) new.old ≡ new_joints (linkage_in self.now.linkage) self.now.state.now) × (length new.old ≡ length self.now.state.now) }
        ensures { new.new ≡ new_state (linkage_in self.now.linkage) self.now.state.now }
    {
        for i in 0..bodies.len() {
            let finished = BodyAt { tick: *self, i }.finish(pre_solve[i], bodies[i]);
            finished.write(new, BODY_NUMBERS * i);
        }
    }
}
