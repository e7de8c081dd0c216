// The converter's two calls, and what they refuse. Nothing is written before the last refusal is passed.
ghost use Rattle.std.specs.Prelude.{◌≡◌, [], ◌∷◌, IfOk};
ghost use Rattle.std.specs.Result.{result_unwrap_or};
ghost use Rattle.card.specs.Format.{bits_at};
ghost use Rattle.card.specs.Checks.{first_of};
ghost use Rattle.card.specs.Answer.{number_of};
ghost use Rattle.card.specs.Parts.{edition_number};
ghost use Rattle.convert.specs.Parts.{SmallHeader, length_in, too_large_in};
ghost use Rattle.convert.specs.Convert.{converted, own_checks, conversion_check, conversion, unless_refused, convert_of};

use crate::records::Way;
use card::accepted_card::Accepted;
use card::bits::bits8_at;
use card::checks::check;
use card::edition::Edition;
use card::layout::{BODY_BYTES, LEAST_BYTES};
use card::records::{HeaderBits, header_bits};
use card::refusal::Refusal;

// How many bytes a card with such a header has in an edition.
#[tactic(auto, using(card::proofs::Editions::header_bytes_lem, card::proofs::Editions::joints_bytes), unfolding(crate::specs::Parts::length_in, card::specs::Parts::sizes_of))]
fn length_in(h: HeaderBits, edition: Edition) -> usize
    requires { SmallHeader h }
    ensures { result ≡ length_in (edition_number edition) h }
{
    let s = edition.sizes();
    s.header_bytes + BODY_BYTES * h.bodies + s.joint_bytes * h.joints
}

// More bodies or joints than an edition has, or a faster rate.
#[tactic(auto, unfolding(crate::specs::Parts::too_large_in, card::specs::Parts::sizes_of))]
fn too_large(h: HeaderBits, edition: Edition) -> bool
    ensures { result ≡ too_large_in (edition_number edition) h }
{
    let s = edition.sizes();
    (s.most < h.bodies) | (s.most < h.joints) | (s.fastest < h.rate)
}

// The card's own refusals, with any edition but one.
#[tactic(auto, using(crate::proofs::Answers::own_answer))]
fn check_edition(card: &[u8], edition: Edition) -> Result<Accepted<'_>, Refusal>
    ensures number { number_of result ≡ first_of (own_checks (edition_number edition) card.now) }
    ensures bytes { IfOk result (λ accepted. accepted.bytes.now ≡ card.now) }
{
    if card.len() < LEAST_BYTES {
        return Err(Refusal::ShortCard);
    }
    if bits8_at(card, 0) != edition.number() {
        return Err(Refusal::WrongEdition);
    }
    check(card)
}

impl Way {
    // Of a card of the edition that the way starts from.
    #[tactic(auto, using(card::proofs::Accepted::at_least_12, crate::proofs::Starts::small_header))]
    fn convert_accepted(self, card: Accepted, out: &mut [u8]) -> Result<usize, Refusal>
        requires { bits_at card.bytes.now 0 8 ≡ edition_number self.from }
        ensures { conversion (number_of result) (result_unwrap_or result 0) out.new ≡ unless_refused (conversion_check (edition_number self.to) card.entry.bytes.now out.old ∷ []) (converted (edition_number self.to) card.entry.bytes.now) out.old }
    {
        let h = header_bits(card.bytes, self.from);
        let length = length_in(h, self.to);
        if too_large(h, self.to) | (out.len() < length) {
            return Err(Refusal::Conversion);
        }
        self.write_card(card.bytes, h.bodies, h.joints, &mut out[..length]);
        Ok(length)
    }

    fn convert(self, card: &[u8], out: &mut [u8]) -> Result<usize, Refusal>
        ensures { conversion (number_of result) (result_unwrap_or result 0) out.new ≡ convert_of (edition_number self.from) (edition_number self.to) card.now out.old }
    {
        self.convert_accepted(check_edition(card, self.from)?, out)
    }
}

// How many bytes the result has. Each way is a call for C.
pub fn to_edition_2(card: &[u8], out: &mut [u8]) -> Result<usize, Refusal>
    ensures { conversion (number_of result) (result_unwrap_or result 0) out.new ≡ convert_of 1 2 card.now out.old }
{
    let way = Way {
        from: Edition::One,
        to: Edition::Two,
    };
    way.convert(card, out)
}

pub fn to_edition_1(card: &[u8], out: &mut [u8]) -> Result<usize, Refusal>
    ensures { conversion (number_of result) (result_unwrap_or result 0) out.new ≡ convert_of 2 1 card.now out.old }
{
    let way = Way {
        from: Edition::Two,
        to: Edition::One,
    };
    way.convert(card, out)
}
