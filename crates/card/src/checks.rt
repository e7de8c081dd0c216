// The refusals of a card. The records are looked at once, each for all that is checked of it; the answer is the first check that a record fails.
ghost use Rattle.std.specs.Prelude.{◌≡◌, ◌+◌, ◌*◌, ◌≤◌, ◌<◌, length, IfOk};
ghost use Rattle.card.specs.Format.{numbers_at, records_at};
ghost use Rattle.card.specs.Card.{at, body, edition_of};
ghost use Rattle.card.specs.Answer.{number_of};
ghost use Rattle.card.specs.Checks.{any, off_unit, wrong_pair, first_of, record_checks, check_of};
ghost use Rattle.card.specs.Parts.{edition_number, sizes_of, card_with, counts_fault, rate_fault, or_faults, field_faults, header_faults, body_faults, joint_faults, faults_of, breaking_load_faults, wide_at, limit_at, norms_at};

use crate::accepted_card::Accepted;
use crate::bits::{bits8_at, bits32_at, float_at, quat_at, vec3_at};
use crate::edition::Edition;
use crate::kinds::kind_of;
use crate::layout::{
    ANCHOR1, AXIS, BASIS1, BASIS2, BODY_BYTES, BOUNDED, BREAKING_LOAD, Bounds, CAP, COMPLIANCES,
    GRAVITY, INV_INERTIA, INV_MASS, LEAST_BYTES, LIMIT1, LIMIT2, LINEAR_VELOCITY, MOTOR,
    NOT_NEGATIVE, POSITION, ROTATION, SLOWEST, WARM_COEFFICIENT, WIDEST_ANGLE,
};
use crate::records::{BodyRecord, JointRecord, body_bits, header_bits, joint_bits};
use crate::refusal::Refusal;
use scalar::outside;
use std::ops::BitOr;

// Which of the checks a record fails by itself, or one of several records.
#[derive(Clone, Copy)]
pub struct Faults {
    // 6
    pub bits: bool,
    // 17
    pub dominance: bool,
    // 7
    pub floats: bool,
    // 19
    pub angles: bool,
    // 8
    pub limits: bool,
    // 9
    pub norms: bool,
}

impl BitOr for Faults {
    type Output = Faults;

    ghost bitor_gives = { λ a b r. r ≡ or_faults a b };

    #[tactic(auto, unfolding(crate::specs::Parts::or_faults))]
    fn bitor(self, other: Faults) -> Faults {
        Faults {
            bits: self.bits | other.bits,
            dominance: self.dominance | other.dominance,
            floats: self.floats | other.floats,
            angles: self.angles | other.angles,
            limits: self.limits | other.limits,
            norms: self.norms | other.norms,
        }
    }
}

impl Faults {
    const NONE: Faults = Faults {
        bits: false,
        dominance: false,
        floats: false,
        angles: false,
        limits: false,
        norms: false,
    };

    // With the faults of so many floats, which have use or not, and bounds. Without use a float is zero, and so in bounds, or it is refused by 6 before 7.
    fn field(self, part: &[u8], used: bool, bounds: Bounds, at: usize, count: usize) -> Faults
        requires { at + 4 * count ≤ length part.now }
        ensures { result ≡ field_faults self part.now used bounds.low bounds.high at count }
    {
        if used {
            let beyond = (0..count).any(|n| {
                let x = float_at(part, at + 4 * n);
                outside(x, bounds.low, bounds.high)
            });
            return Faults {
                floats: self.floats | beyond,
                ..self
            };
        }
        let set = (0..count).any(|n| bits32_at(part, at + 4 * n) != 0);
        Faults {
            bits: self.bits | set,
            ..self
        }
    }

    // With the faults of a joint's breaking load, where the edition has it.
    #[tactic(auto, unfolding(crate::specs::Parts::breaking_load_faults, crate::specs::Parts::sizes_of, crate::specs::Card::edition_of))]
    fn breaking_load(self, part: &[u8], edition: Edition) -> Faults
        requires { (sizes_of edition).joint_bytes ≤ length part.now }
        ensures { result ≡ breaking_load_faults self part.now edition }
    {
        match edition {
            Edition::One | Edition::Two => self,
            Edition::Three => self.field(part, true, CAP, BREAKING_LOAD, 1),
        }
    }
}

#[tactic(auto, using(crate::proofs::Editions::header_bytes_lem))]
fn header_faults(part: &[u8], edition: Edition) -> Faults
    requires { (sizes_of edition).header_bytes ≤ length part.now }
    ensures { result ≡ header_faults (edition_of (edition_number edition)).header (numbers_at (edition_of (edition_number edition)).header part.now 0) }
{
    let h = header_bits(part, edition);
    let end = edition.sizes().header_bytes;
    let f = Faults {
        bits: h.zero != 0,
        ..Faults::NONE
    };
    f.field(part, true, BOUNDED, end - GRAVITY, 1)
        .field(part, true, NOT_NEGATIVE, end - WARM_COEFFICIENT, 1)
}

// Whether a sum of squares is outside 1 ± 2^-10.
#[tactic(auto, unfolding(crate::specs::Checks::off_unit))]
fn off_unit(s: f32) -> bool
    ensures { result ≡ off_unit s }
{
    outside(s, 0.9990234375, 1.0009765625)
}

impl<'a> BodyRecord<'a> {
    fn faults(self) -> Faults
        ensures { result ≡ body_faults (numbers_at body self.entry.bytes.now 0) }
    {
        let part = self.bytes;
        let b = body_bits(part);
        let moving = !b.anchored;
        let locked = b.lock_x | b.lock_y | b.lock_z;
        let f = Faults {
            bits: b.anchored & (locked | (b.dominance != 0)) | (b.zero != 0),
            dominance: b.dominance != 0,
            ..Faults::NONE
        };
        let g = f
            .field(part, true, BOUNDED, POSITION, 10)
            .field(part, moving, BOUNDED, LINEAR_VELOCITY, 6)
            .field(part, moving, NOT_NEGATIVE, INV_MASS, 1)
            .field(part, moving, BOUNDED, INV_INERTIA, 6);
        Faults {
            norms: off_unit(quat_at(part, ROTATION).length_squared()),
            ..g
        }
    }
}

impl<'a> JointRecord<'a> {
    // Whether the min at a place or the max behind it is over the largest angle in size.
    #[tactic(auto, unfolding(crate::specs::Parts::wide_at))]
    fn wide_fault(self, at: usize) -> bool
        requires { at + 8 ≤ 123 }
        ensures { result ≡ wide_at self.entry.bytes.now at }
    {
        let min = float_at(self.bytes, at);
        let max = float_at(self.bytes, at + 4);
        outside(min, -WIDEST_ANGLE, WIDEST_ANGLE) | outside(max, -WIDEST_ANGLE, WIDEST_ANGLE)
    }

    // Whether the min at a place is above the max behind it.
    #[tactic(auto, unfolding(crate::specs::Parts::limit_at))]
    fn limit_fault(self, at: usize) -> bool
        requires { at + 8 ≤ 123 }
        ensures { result ≡ limit_at self.entry.bytes.now at }
    {
        float_at(self.bytes, at) > float_at(self.bytes, at + 4)
    }

    #[tactic(auto, unfolding(crate::specs::Parts::norms_at))]
    fn norms_fault(self, bases: bool, axis: bool) -> bool
        ensures { result ≡ norms_at self.entry.bytes.now bases axis }
    {
        let first = off_unit(quat_at(self.bytes, BASIS1).length_squared());
        let second = off_unit(quat_at(self.bytes, BASIS2).length_squared());
        bases & (first | second) | axis & off_unit(vec3_at(self.bytes, AXIS).length_squared())
    }

    fn faults(self, edition: Edition) -> Faults
        requires { (sizes_of edition).joint_bytes ≤ length self.bytes.now }
        ensures { result ≡ joint_faults (edition_of (edition_number edition)).joint (numbers_at (edition_of (edition_number edition)).joint self.entry.bytes.now 0) }
    {
        let part = self.bytes;
        let b = joint_bits(part, edition);
        let motor = b.motor != 0;
        let kind = kind_of(b.kind, b.first, b.second, motor);
        let many = kind.compliances;
        let f = Faults {
            bits: b.zero != 0,
            ..Faults::NONE
        };
        let g = f
            .field(part, true, BOUNDED, ANCHOR1, 6)
            .field(part, kind.bases, BOUNDED, BASIS1, 8)
            .field(part, kind.axis, BOUNDED, AXIS, 3)
            .field(part, 0 < many, NOT_NEGATIVE, COMPLIANCES, 1)
            .field(part, 1 < many, NOT_NEGATIVE, COMPLIANCES + 4, 1)
            .field(part, 2 < many, NOT_NEGATIVE, COMPLIANCES + 8, 1)
            .field(part, 3 < many, NOT_NEGATIVE, COMPLIANCES + 12, 1)
            .field(part, b.first, BOUNDED, LIMIT1, 2)
            .field(part, b.second, BOUNDED, LIMIT2, 2)
            // target velocity and position, cap, two model floats
            .field(part, motor, BOUNDED, MOTOR, 2)
            .field(part, motor, CAP, MOTOR + 8, 1)
            .field(part, motor, BOUNDED, MOTOR + 12, 2)
            .breaking_load(part, edition);
        Faults {
            bits: g.bits | !kind.fits,
            angles: kind.angles & (self.wide_fault(LIMIT1) | self.wide_fault(LIMIT2)),
            limits: self.limit_fault(LIMIT1) | self.limit_fault(LIMIT2),
            norms: self.norms_fault(kind.bases, kind.axis),
            ..g
        }
    }
}

// Of so many bodies from `at` on. The card and a place, and no slice of the rows alone: each clause would have to say where the card has it.
// The loop stands twice, for bodies and joints: over a closure its contract would be longer than both loops.
fn bodies_faults(card: &[u8], at: usize, count: usize) -> Faults
    requires { at + 94 * count ≤ length card.now }
    ensures { result ≡ faults_of body_faults (records_at body card.now (8 * at) count) }
{
    let mut f = Faults::NONE;
    for part in card[at..at + BODY_BYTES * count].chunks_exact(BODY_BYTES) {
        let record = BodyRecord { bytes: part };
        f = f | record.faults();
    }
    f
}

// Of so many joints from `at` on.
#[tactic(auto, using(crate::proofs::Editions::joint_bytes_lem))]
fn joints_faults(card: &[u8], edition: Edition, at: usize, count: usize) -> Faults
    requires { at + (sizes_of edition).joint_bytes * count ≤ length card.now }
    ensures { result ≡ faults_of (joint_faults (edition_of (edition_number edition)).joint) (records_at (edition_of (edition_number edition)).joint card.now (8 * at) count) }
{
    let size = edition.sizes().joint_bytes;
    let mut f = Faults::NONE;
    for part in card[at..at + size * count].chunks_exact(size) {
        let record = JointRecord { bytes: part };
        f = f | record.faults(edition);
    }
    f
}

// A missing body, one body twice, or two anchored ones; the bodies begin at a place.
#[tactic(auto, using(crate::proofs::Cut::records_length))]
fn pair_fault(card: &[u8], at: usize, bodies: usize, a: usize, b: usize) -> bool
    requires { at + 94 * bodies ≤ length card.now }
    ensures { result ≡ wrong_pair (records_at body card.now (8 * at) bodies) a b }
{
    if bodies <= a {
        return true;
    }
    if bodies <= b {
        return true;
    }
    if a == b {
        return true;
    }
    let at_a = at + BODY_BYTES * a;
    let at_b = at + BODY_BYTES * b;
    let anchored_a = body_bits(&card[at_a..at_a + BODY_BYTES]).anchored;
    let anchored_b = body_bits(&card[at_b..at_b + BODY_BYTES]).anchored;
    anchored_a & anchored_b
}

// Whether one of so many joints from a place on names its bodies wrongly.
#[tactic(auto, using(crate::proofs::Editions::joint_bytes_lem))]
fn any_pair_fault(
    card: &[u8],
    edition: Edition,
    bodies_at: usize,
    bodies: usize,
    joints_at: usize,
    joints: usize,
) -> bool
    requires { (bodies_at + 94 * bodies ≤ length card.now) × (joints_at + (sizes_of edition).joint_bytes * joints ≤ length card.now) }
    ensures { result ≡ any (λ j. wrong_pair (records_at body card.now (8 * bodies_at) bodies) (at 1 j) (at 2 j)) (records_at (edition_of (edition_number edition)).joint card.now (8 * joints_at) joints) }
{
    let size = edition.sizes().joint_bytes;
    card[joints_at..joints_at + size * joints]
        .chunks_exact(size)
        .any(|part| {
            let b = joint_bits(part, edition);
            pair_fault(card, bodies_at, bodies, b.body1, b.body2)
        })
}

// No bodies, or too many bodies or joints.
#[tactic(auto, unfolding(crate::specs::Parts::counts_fault))]
fn counts_fault(most: usize, bodies: usize, joints: usize) -> bool
    ensures { result ≡ counts_fault most bodies joints }
{
    (bodies == 0) | (most < bodies) | (most < joints)
}

#[tactic(auto, unfolding(crate::specs::Parts::rate_fault))]
fn rate_fault(fastest: u32, rate: u32) -> bool
    ensures { result ≡ rate_fault fastest rate }
{
    (rate < SLOWEST) | (fastest < rate)
}

// The checks from 6 on, of a card with so many bodies and joints.
#[tactic(auto, using(crate::proofs::CheckRows::checks_are))]
fn check_records(card: &[u8], edition: Edition, bodies: usize, joints: usize) -> Result<(), Refusal>
    requires { length card.now ≡ (sizes_of edition).header_bytes + 94 * bodies + (sizes_of edition).joint_bytes * joints }
    ensures { number_of result ≡ first_of (record_checks (edition_of (edition_number edition)) (card_with (edition_of (edition_number edition)) card.now bodies joints)) }
{
    let at = edition.sizes().header_bytes;
    let first = at + BODY_BYTES * bodies;
    let h = header_faults(card, edition);
    let b = bodies_faults(card, at, bodies);
    let j = joints_faults(card, edition, first, joints);
    if h.bits | b.bits | j.bits {
        return Err(Refusal::UnusedBits);
    }
    if b.dominance {
        return Err(Refusal::Dominance);
    }
    if h.floats | b.floats | j.floats {
        return Err(Refusal::FloatOutOfRange);
    }
    if j.angles {
        return Err(Refusal::AngleLimit);
    }
    if j.limits {
        return Err(Refusal::LimitOrder);
    }
    if b.norms | j.norms {
        return Err(Refusal::NotUnit);
    }
    if any_pair_fault(card, edition, at, bodies, first, joints) {
        return Err(Refusal::WrongBodies);
    }
    Ok(())
}

// The first of the refusals that applies to a card. Its answer is a register's, so that where a function's calls each check one card, and write nothing between that might be the
// card's, the compiler can ask once.
#[tactic(auto, using(crate::proofs::Editions::few, crate::proofs::Editions::refused_early, crate::proofs::Editions::by_records))]
#[inline(never)]
fn checked(card: &[u8]) -> Result<(), Refusal>
    ensures { number_of result ≡ check_of card.now }
{
    if card.len() < LEAST_BYTES {
        return Err(Refusal::ShortCard);
    }
    let edition = Edition::try_from(bits8_at(card, 0))?;
    let sizes = edition.sizes();
    let h = header_bits(card, edition);
    let bodies = h.bodies;
    let joints = h.joints;
    if counts_fault(sizes.most, bodies, joints) {
        return Err(Refusal::WrongCounts);
    }
    if rate_fault(sizes.fastest, h.rate) {
        return Err(Refusal::WrongRate);
    }
    if card.len() != sizes.header_bytes + BODY_BYTES * bodies + sizes.joint_bytes * joints {
        return Err(Refusal::WrongLength);
    }
    check_records(card, edition, bodies, joints)
}

// The card, or the first of the refusals that applies to it.
#[inline(always)]
pub fn check(card: &[u8]) -> Result<Accepted<'_>, Refusal>
    ensures number { number_of result ≡ check_of card.now }
    ensures bytes { IfOk result (λ accepted. accepted.bytes.now ≡ card.now) }
{
    checked(card)?;
    Ok(Accepted { bytes: card })
}
