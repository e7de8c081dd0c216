// Refusals 12 and 21, and 13 of a new state.
ghost use Rattle.std.specs.Prelude.{◌≡◌, not, ◌*◌, ◌≤◌, length};
ghost use Rattle.scalar.specs.Scalar.{is_finite};
ghost use Rattle.numbers.specs.Lists.{all};
ghost use Rattle.state.specs.State.{body_numbers, state_length, far_away, bad_numbers, bad_mark, bad_marks};
ghost use Rattle.state.specs.Parts.{any_far};

use crate::places::{BODY_NUMBERS, Numbers, TOTAL_NUMBERS, state_length};
use scalar::{is_finite, outside, to_bits};
use solver_body::POSITION_BOUND;
use vector::Vec3;

// It looks at all of them: a loop with no early return is vectorised.
fn any_not_finite(state: &[f32]) -> bool
    ensures { result ≡ not (all is_finite state.now) }
{
    state.iter().fold(false, |bad, x| bad | !is_finite(*x))
}

fn far_away(p: Vec3) -> bool
    ensures { result ≡ far_away p }
{
    outside(p.x, -POSITION_BOUND, POSITION_BOUND)
        | outside(p.y, -POSITION_BOUND, POSITION_BOUND)
        | outside(p.z, -POSITION_BOUND, POSITION_BOUND)
}

// A loop and no `any`, whose law goes from the front: the definition lists the bodies by one more at its end.
#[tactic(auto, using(crate::proofs::Found::none_far, crate::proofs::Found::next_far))]
fn any_far(bodies: usize, state: &[f32]) -> bool
    requires { body_numbers * bodies ≤ length state.now }
    ensures { result ≡ any_far bodies state.now }
{
    let mut far = false;
    for i in 0..bodies {
        far = far | far_away(Vec3::read(state, BODY_NUMBERS * i));
    }
    far
}

#[tactic(auto, unfolding(crate::specs::State::bad_numbers, crate::specs::Parts::any_far))]
pub fn bad_numbers(bodies: usize, state: &[f32]) -> bool
    requires { body_numbers * bodies ≤ length state.now }
    ensures { result ≡ bad_numbers bodies state.now }
{
    any_not_finite(state) | any_far(bodies, state)
}

// Neither of the bits of 0 nor of 1.
#[tactic(auto, unfolding(crate::specs::State::bad_mark))]
fn bad_mark(x: f32) -> bool
    ensures { result ≡ bad_mark x }
{
    let bits = to_bits(x);
    bits != 0 && bits != 0x3f80_0000
}

#[tactic(auto, using(crate::proofs::Found::no_mark, crate::proofs::Found::next_mark))]
pub fn bad_marks(bodies: usize, joints: usize, state: &[f32]) -> bool
    requires { state_length bodies joints ≤ length state.now }
    ensures { result ≡ bad_marks bodies joints state.now }
{
    let mut bad = false;
    for j in 0..joints {
        bad = bad | bad_mark(state[state_length(bodies, j) + TOTAL_NUMBERS]);
    }
    bad
}
