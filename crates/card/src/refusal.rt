// The refusals of document 01, 'Turned back', which a call answers in the place of its result.
ghost use Rattle.std.specs.Prelude.{◌≡◌, Some};
ghost use Rattle.card.specs.Answer.{refusal_number, number_of, refused};

use std::error::Error;
use std::fmt;

#[derive(Clone, Copy, Debug)]
pub enum Refusal {
    ShortCard = 1,
    WrongEdition = 2,
    WrongCounts = 3,
    WrongRate = 4,
    WrongLength = 5,
    UnusedBits = 6,
    FloatOutOfRange = 7,
    LimitOrder = 8,
    NotUnit = 9,
    WrongBodies = 10,
    StateLength = 11,
    StateNumber = 12,
    Stopped = 13,
    Conversion = 16,
    Dominance = 17,
    AngleLimit = 19,
    JointMark = 21,
}

impl Refusal {
    pub fn number(self) -> u8
        ensures { result ≡ refusal_number self }
    {
        self as u8
    }
}

// Of an answer, 0 where nothing is refused.
pub fn number_of<A: Copy>(answer: Result<A, Refusal>) -> u8
    ensures { result ≡ number_of answer }
{
    match answer {
        Ok(_) => 0,
        Err(refusal) => refusal.number(),
    }
}

impl fmt::Display for Refusal {
    ghost output = { λ refusal. Some (refused (refusal_number refusal)) };

    fn fmt<W: fmt::Write>(&self, f: &mut fmt::Formatter<W>) -> fmt::Result {
        write!(f, "refused {}", self.number())
    }
}

impl Error for Refusal {}
