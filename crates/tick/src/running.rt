// A loaded linkage that runs: the state that it has come to, and scratch for a tick.
ghost use Rattle.std.specs.Prelude.{◌≡◌, true, false, length, IfOk, IfErr};
ghost use Rattle.card.specs.Answer.{number_of};
ghost use Rattle.loader.specs.Parts.{linkage_in};
ghost use Rattle.state.specs.State.{state_length};
ghost use Rattle.tick.specs.Tick.{turned_linkage, new_state, stopped};
ghost use Rattle.tick.specs.Work.{ran, all_or_nothing, ticks_of};

use crate::linked::Tick;
use crate::run::RunAnswer;
use crate::steps::Stopped;
use crate::turn::turn_bodies;
use card::refusal::Refusal;
use loader::body::LinkBody;
use loader::linkage::Linkage;
use solver_body::SolverBody;
use state::check::bad_numbers;

// Four slices of bodies and no slice of structs: each step's contract is an equation of one of them with a list of the definition, and pre-solve is a copy of another.
#[derive(Drop)]
pub struct Running<'b, 'j, 'w> {
    // Its inertias along the bodies' own axes.
    pub own: Linkage<'b, 'j>,
    pub state: &'w mut [f32],
    pub turned: &'w mut [LinkBody],
    pub bodies: &'w mut [SolverBody],
    pub pre_solve: &'w mut [SolverBody],
    pub next: &'w mut [f32],
    pub ghost numbers: { (length state.now ≡ state_length (length own.bodies.now) (length own.joints.now)) × (length next.now ≡ length state.now) },
    pub ghost places: { (length turned.now ≡ length own.bodies.now) × (length bodies.now ≡ length own.bodies.now) × (length pre_solve.now ≡ length own.bodies.now) },
}

impl<'b, 'j, 'w> Running<'b, 'j, 'w> {
    // One tick, from a state that no check refuses: it turns the inertias first. A literal with a ghost field takes no `..own`.
    fn tick(&mut self) -> Result<(), Stopped>
        ensures done { IfOk result (λ _. (stopped (turned_linkage (linkage_in self.old.own) self.old.state.now) self.old.state.now ≡ false) × (self.new.state.now ≡ new_state (turned_linkage (linkage_in self.old.own) self.old.state.now) self.old.state.now)) }
        ensures stopped { IfErr result (λ _. stopped (turned_linkage (linkage_in self.old.own) self.old.state.now) self.old.state.now ≡ true) }
        ensures own { self.new.own ≡ self.old.own }
    {
        let own = self.own;
        let state = &mut *self.state;
        let turned = &mut *self.turned;
        let bodies = &mut *self.bodies;
        let pre_solve = &mut *self.pre_solve;
        let next = &mut *self.next;
        turn_bodies(&own, state, turned);
        let linkage = Linkage {
            dt: own.dt,
            gravity: own.gravity,
            warm_coefficient: own.warm_coefficient,
            bodies: turned,
            joints: own.joints,
        };
        let tick = Tick { linkage, state };
        tick.load_bodies(bodies);
        tick.warm_start(bodies);
        tick.integrate_bodies(bodies);
        pre_solve.copy_from_slice(bodies);
        tick.solve_joints(bodies, next)?;
        tick.mark_joints(next);
        tick.finish_bodies(pre_solve, bodies, next);
        if bad_numbers(tick.linkage.bodies.len(), next) {
            return Err(Stopped);
        }
        state.copy_from_slice(next);
        Ok(())
    }

    // Ticks of a copy of the state, which is written last: a tick that is stopped leaves it as it was.
    pub fn run(&mut self, state: &mut [f32], ticks: u32) -> RunAnswer
        requires { length state.old ≡ length self.old.state.now }
        ensures { ran (number_of result.answer) result.ticks state.new ≡ all_or_nothing state.old (ticks_of (linkage_in self.old.own) state.old ticks) }
    {
        self.state.copy_from_slice(state);
        for done in 0..ticks {
            if let Err(Stopped) = self.tick() {
                return RunAnswer {
                    answer: Err(Refusal::Stopped),
                    ticks: done,
                };
            }
        }
        state.copy_from_slice(self.state);
        RunAnswer {
            answer: Ok(()),
            ticks,
        }
    }
}
