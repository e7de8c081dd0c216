// Ticks: one, and several in a row. Each call is all or nothing.
ghost use Rattle.std.specs.Prelude.{◌≡◌, ◌≤◌, length};
ghost use Rattle.card.specs.Answer.{number_of};
ghost use Rattle.card.specs.Card.{card_of};
ghost use Rattle.loader.specs.Linkage.{linkage_of};
ghost use Rattle.loader.specs.Parts.{header_of};
ghost use Rattle.state.specs.State.{state_length, answered};
ghost use Rattle.tick.specs.Run.{tick_of, run_of};
ghost use Rattle.tick.specs.Work.{ran, all_or_nothing, ticks_of};

use crate::running::Running;
use card::accepted_card::Accepted;
use card::checks::check;
use card::refusal::Refusal;
use loader::body::LinkBody;
use loader::header::{Header, header_of};
use loader::joint::LinkJoint;
use loader::load::load;
use solver_body::SolverBody;
use state::check::{bad_marks, bad_numbers};
use state::places::{BODY_NUMBERS, JOINT_NUMBERS, state_length};

// What a run answers, and how many ticks were done, before a refused one too.
#[derive(Clone, Copy)]
pub struct RunAnswer {
    pub answer: Result<(), Refusal>,
    pub ticks: u32,
}

// Ticks of a state that no check refuses, in scratch for at most so many bodies, joints and numbers of the state.
// A small card's scratch is small, as a frame of its own.
#[inline(never)]
fn run_within<const ROOM: usize, const NUMBERS: usize>(
    card: Accepted,
    h: Header,
    state: &mut [f32],
    ticks: u32,
) -> RunAnswer
    requires header { h ≡ header_of (card_of card.bytes.now) }
    requires state { length state.old ≡ state_length h.bodies h.joints }
    requires room { (h.bodies ≤ ROOM) × (h.joints ≤ ROOM) × (state_length h.bodies h.joints ≤ NUMBERS) × (ROOM ≤ 200) × (NUMBERS ≤ 5200) }
    ensures { ran (number_of result.answer) result.ticks state.new ≡ all_or_nothing state.old (ticks_of (linkage_of (card_of card.entry.bytes.now)) state.old ticks) }
{
    let mut own = [LinkBody::DUMMY; ROOM];
    let mut turned = [LinkBody::DUMMY; ROOM];
    let mut joints = [LinkJoint::DUMMY; ROOM];
    let mut bodies = [SolverBody::DUMMY; ROOM];
    let mut pre_solve = [SolverBody::DUMMY; ROOM];
    let mut copied = [0.0; NUMBERS];
    let mut next = [0.0; NUMBERS];
    let n = state.len();
    Running {
        own: load(card, h, &mut own[..h.bodies], &mut joints[..h.joints]),
        state: &mut copied[..n],
        turned: &mut turned[..h.bodies],
        bodies: &mut bodies[..h.bodies],
        pre_solve: &mut pre_solve[..h.bodies],
        next: &mut next[..n],
    }
    .run(state, ticks)
}

const FEW: usize = 8;

// The state's, by a name: a const argument is no sum.
const FEW_NUMBERS: usize = (BODY_NUMBERS + JOINT_NUMBERS) * FEW;

const MANY: usize = 32;

const MANY_NUMBERS: usize = (BODY_NUMBERS + JOINT_NUMBERS) * MANY;

const MOST: usize = 200;

const MOST_NUMBERS: usize = (BODY_NUMBERS + JOINT_NUMBERS) * MOST;

fn refused(refusal: Refusal) -> RunAnswer
    ensures { (result.answer ≡ Err refusal) × (result.ticks ≡ 0) }
{
    RunAnswer {
        answer: Err(refusal),
        ticks: 0,
    }
}

// Ticks in a row; where one is refused, its answer, the ticks done before it, and the state as it was.
pub fn run(card: &[u8], state: &mut [f32], ticks: u32) -> RunAnswer
    ensures { record { number = number_of result.answer; ticks = result.ticks; state = state.new } ≡ run_of card.now state.old ticks }
{
    let card = match check(card) {
        Ok(card) => card,
        Err(refusal) => return refused(refusal),
    };
    let h = header_of(card);
    if state.len() != state_length(h.bodies, h.joints) {
        return refused(Refusal::StateLength);
    }
    if ticks == 0 {
        return RunAnswer {
            answer: Ok(()),
            ticks: 0,
        };
    }
    if bad_numbers(h.bodies, state) {
        return refused(Refusal::StateNumber);
    }
    if bad_marks(h.bodies, h.joints, state) {
        return refused(Refusal::JointMark);
    }
    let most = h.bodies.max(h.joints);
    if most <= FEW {
        return run_within::<FEW, FEW_NUMBERS>(card, h, state, ticks);
    }
    if most <= MANY {
        return run_within::<MANY, MANY_NUMBERS>(card, h, state, ticks);
    }
    run_within::<MOST, MOST_NUMBERS>(card, h, state, ticks)
}

// One tick, or the refusal, which leaves the state as it was.
pub fn tick(card: &[u8], state: &mut [f32]) -> Result<(), Refusal>
    ensures { answered (number_of result) state.new ≡ tick_of card.now state.old }
{
    run(card, state, 1).answer
}
