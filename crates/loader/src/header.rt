// What the header of a card says.
ghost use Rattle.std.specs.Prelude.{◌≡◌};
ghost use Rattle.card.specs.Card.{card_of};
ghost use Rattle.loader.specs.Parts.{header_of};

use card::accepted_card::Accepted;
use card::bits::float_at;
use card::edition::Edition;
use card::layout::{GRAVITY, WARM_COEFFICIENT};
use card::records::header_bits;

#[derive(Clone, Copy)]
pub struct Header {
    pub bodies: usize,
    pub joints: usize,
    pub dt: f32,
    pub gravity: f32,
    pub warm_coefficient: f32,
}

#[tactic(auto, using(card::proofs::Accepted::at_least_12, crate::proofs::Accepted::header_long, crate::proofs::Accepted::header_fits))]
pub fn header_of(card: Accepted) -> Header
    ensures { result ≡ header_of (card_of card.entry.bytes.now) }
{
    let edition = Edition::of(card);
    let b = header_bits(card.bytes, edition);
    let end = edition.sizes().header_bytes;
    Header {
        bodies: b.bodies,
        joints: b.joints,
        dt: 1.0 / b.rate as f32,
        gravity: float_at(card.bytes, end - GRAVITY),
        warm_coefficient: float_at(card.bytes, end - WARM_COEFFICIENT),
    }
}
