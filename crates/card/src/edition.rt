// The editions, and what each has of its own: document 01, 'The card' and 'Turned back', and document 02, points 4 and 11.
ghost use Rattle.std.specs.Prelude.{◌≡◌, IsTrue, MatchResult};
ghost use Rattle.card.specs.declared.refusal.Refusal.TheVariants.{WrongEdition};
ghost use Rattle.card.specs.Format.{bits_at};
ghost use Rattle.card.specs.Parts.{edition_number, edition_fault, sizes_of};

use crate::accepted_card::Accepted;
use crate::bits::bits8_at;
use crate::refusal::Refusal;

#[derive(Clone, Copy)]
pub enum Edition {
    One = 1,
    Two = 2,
    Three = 3,
}

#[derive(Clone, Copy)]
pub struct EditionSizes {
    pub header_bytes: usize,
    pub joint_bytes: usize,
    // Of bodies and of joints.
    pub most: usize,
    pub fastest: u32,
}

impl TryFrom<u32> for Edition {
    type Error = Refusal;

    ghost try_from_gives = { λ n r. MatchResult r (λ edition. edition_number edition ≡ n) (λ refusal. (refusal ≡ WrongEdition) × IsTrue (edition_fault n)) };

    #[tactic(auto, using(crate::proofs::Editions::other))]
    fn try_from(n: u32) -> Result<Edition, Refusal> {
        match n {
            1 => Ok(Edition::One),
            2 => Ok(Edition::Two),
            3 => Ok(Edition::Three),
            _ => Err(Refusal::WrongEdition),
        }
    }
}

impl Edition {
    #[tactic(auto, using(crate::proofs::Accepted::at_least_12))]
    pub fn of(card: Accepted) -> Edition
        ensures { edition_number result ≡ bits_at card.entry.bytes.now 0 8 }
    {
        Edition::try_from(bits8_at(card.bytes, 0)).unwrap()
    }

    pub fn number(self) -> u32
        ensures { result ≡ edition_number self }
    {
        self as u32
    }

    #[tactic(auto, unfolding(crate::specs::Parts::sizes_of, crate::specs::Card::edition_of))]
    pub fn sizes(self) -> EditionSizes
        ensures { result ≡ sizes_of self }
    {
        match self {
            Edition::One => EditionSizes {
                header_bytes: 12,
                joint_bytes: 123,
                most: 32,
                fastest: 1000,
            },
            Edition::Two => EditionSizes {
                header_bytes: 16,
                joint_bytes: 123,
                most: 200,
                fastest: 4000,
            },
            Edition::Three => EditionSizes {
                header_bytes: 16,
                joint_bytes: 127,
                most: 200,
                fastest: 4000,
            },
        }
    }
}
