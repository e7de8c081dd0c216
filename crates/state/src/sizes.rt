// How large a card's state is.
ghost use Rattle.std.specs.Prelude.{◌≡◌};
ghost use Rattle.state.specs.State.{sizes_answered, sizes_of};

use crate::places::state_length;
use card::checks::check;
use card::edition::Edition;
use card::records::header_bits;
use card::refusal::Refusal;

#[derive(Clone, Copy)]
pub struct CardSizes {
    pub bodies: usize,
    pub joints: usize,
    // How many f32s the state has.
    pub state: usize,
}

#[tactic(auto, using(card::proofs::Accepted::at_least_12))]
pub fn sizes(card: &[u8]) -> Result<CardSizes, Refusal>
    ensures { sizes_answered result ≡ sizes_of card.now }
{
    let card = check(card)?;
    let h = header_bits(card.bytes, Edition::of(card));
    Ok(CardSizes {
        bodies: h.bodies,
        joints: h.joints,
        state: state_length(h.bodies, h.joints),
    })
}
