// The state that a card starts with.
ghost use Rattle.std.specs.Prelude.{◌≡◌, ◌++◌, ◌+◌, ◌*◌, ◌≤◌, length, drop};
ghost use Rattle.card.specs.Format.{numbers_at, records_at};
ghost use Rattle.card.specs.Card.{body};
ghost use Rattle.card.specs.Answer.{number_of};
ghost use Rattle.loader.specs.Linkage.{start_body};
ghost use Rattle.state.specs.State.{body_numbers, answered, start_of};
ghost use Rattle.state.specs.Parts.{start_numbers};

use crate::places::{BODY_NUMBERS, Numbers, state_length};
use card::bits::{quat_at, vec3_at};
use card::checks::check;
use card::edition::Edition;
use card::layout::{ANGULAR_VELOCITY, BODY_BYTES, LINEAR_VELOCITY, POSITION, ROTATION};
use card::records::{BodyRecord, header_bits};
use card::refusal::Refusal;
use solver_body::BodyState;

#[tactic(auto, unfolding(card::specs::Parts::vec3_at, card::specs::Parts::quat_at, card::specs::Parts::float_at, card::specs::Format::numbers_at))]
fn start_body(part: BodyRecord) -> BodyState
    ensures { result ≡ start_body (numbers_at body part.entry.bytes.now 0) }
{
    BodyState {
        position: vec3_at(part.bytes, POSITION),
        rotation: quat_at(part.bytes, ROTATION),
        linear_velocity: vec3_at(part.bytes, LINEAR_VELOCITY),
        angular_velocity: vec3_at(part.bytes, ANGULAR_VELOCITY),
    }
}

// Of so many bodies, which begin at a place of the card.
fn write_bodies(card: &[u8], at: usize, bodies: usize, state: &mut [f32])
    requires { (at + 94 * bodies ≤ length card.now) × (body_numbers * bodies ≤ length state.old) }
    ensures { state.new ≡ start_numbers (records_at body card.now (8 * at) bodies) ++ drop (body_numbers * bodies) state.old }
{
    let parts = card[at..at + BODY_BYTES * bodies].chunks_exact(BODY_BYTES);
    for (i, bytes) in parts.enumerate() {
        start_body(BodyRecord { bytes }).write(state, BODY_NUMBERS * i);
    }
}

// A card or a state that is refused leaves the state as it was.
#[tactic(auto, using(card::proofs::Accepted::at_least_12))]
pub fn start(card: &[u8], state: &mut [f32]) -> Result<(), Refusal>
    ensures { answered (number_of result) state.new ≡ start_of card.now state.old }
{
    let card = check(card)?;
    let edition = Edition::of(card);
    let h = header_bits(card.bytes, edition);
    if state.len() != state_length(h.bodies, h.joints) {
        return Err(Refusal::StateLength);
    }
    state.fill(0.0);
    write_bodies(card.bytes, edition.sizes().header_bytes, h.bodies, state);
    Ok(())
}
