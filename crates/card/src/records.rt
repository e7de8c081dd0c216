// The records of a card, and the numbers that each begins with, by edition where the editions differ.
ghost use Rattle.std.specs.Prelude.{◌≡◌, ◌≤◌, length};
ghost use Rattle.card.specs.Format.{numbers_at};
ghost use Rattle.card.specs.Card.{body, edition_of};
ghost use Rattle.card.specs.Parts.{edition_number, header_bits, body_bits, joint_bits};

use crate::bits::{bits8_at, bits16_at, bits24_at, bits32_at};
use crate::edition::Edition;

// A body's own part of a card.
#[derive(Clone, Copy)]
pub struct BodyRecord<'a> {
    pub bytes: &'a [u8],
    pub ghost whole: { 94 ≤ length bytes.now },
}

// A joint's own part of a card.
#[derive(Clone, Copy)]
pub struct JointRecord<'a> {
    pub bytes: &'a [u8],
    pub ghost whole: { 123 ≤ length bytes.now },
}

#[derive(Clone, Copy)]
pub struct HeaderBits {
    pub bodies: usize,
    pub joints: usize,
    // Ticks in a second.
    pub rate: u32,
    pub zero: u32,
}

#[derive(Clone, Copy)]
pub struct BodyBits {
    pub anchored: bool,
    pub lock_x: bool,
    pub lock_y: bool,
    pub lock_z: bool,
    // Eight bits, still without their sign.
    pub dominance: u32,
    pub zero: u32,
}

#[derive(Clone, Copy)]
pub struct JointBits {
    // A number: document 01 has the loader decide over it.
    pub kind: u32,
    pub body1: usize,
    pub body2: usize,
    // Whether the joint has its first and its second limit.
    pub first: bool,
    pub second: bool,
    // The number of its model, 0 for no motor; the converter writes both numbers back.
    pub motor: u32,
    pub zero: u32,
}

// Each edition's places are written out: read from a row of widths each would be a sum of widths, which is no plainer.
pub fn header_bits(part: &[u8], edition: Edition) -> HeaderBits
    requires { 8 ≤ length part.now }
    ensures { result ≡ header_bits (numbers_at (edition_of (edition_number edition)).header part.now 0) }
{
    match edition {
        Edition::One => {
            let b = bits32_at(part, 0);
            HeaderBits {
                bodies: (b / 0x0004_0000 % 0x40) as usize,
                joints: (b / 0x1000 % 0x40) as usize,
                rate: b / 4 % 0x400,
                zero: b / 1 % 4,
            }
        }
        Edition::Two | Edition::Three => HeaderBits {
            bodies: bits8_at(part, 1) as usize,
            joints: bits8_at(part, 2) as usize,
            rate: bits16_at(part, 3),
            zero: bits24_at(part, 5),
        },
    }
}

pub fn body_bits(part: &[u8]) -> BodyBits
    requires { 2 ≤ length part.now }
    ensures { result ≡ body_bits (numbers_at body part.now 0) }
{
    let b = bits16_at(part, 0);
    BodyBits {
        anchored: b / 0x8000 % 2 == 1,
        lock_x: b / 0x4000 % 2 == 1,
        lock_y: b / 0x2000 % 2 == 1,
        lock_z: b / 0x1000 % 2 == 1,
        dominance: b / 0x10 % 0x100,
        zero: b / 1 % 0x10,
    }
}

pub fn joint_bits(part: &[u8], edition: Edition) -> JointBits
    requires { 3 ≤ length part.now }
    ensures { result ≡ joint_bits (numbers_at (edition_of (edition_number edition)).joint part.now 0) }
{
    let b = bits24_at(part, 0);
    match edition {
        Edition::One => JointBits {
            kind: b / 0x0020_0000 % 8,
            body1: (b / 0x0001_0000 % 0x20) as usize,
            body2: (b / 0x0800 % 0x20) as usize,
            first: b / 0x0400 % 2 == 1,
            second: b / 0x0200 % 2 == 1,
            motor: b / 0x80 % 4,
            zero: b / 1 % 0x80,
        },
        Edition::Two | Edition::Three => JointBits {
            kind: b / 0x0020_0000 % 8,
            body1: (b / 0x2000 % 0x100) as usize,
            body2: (b / 0x20 % 0x100) as usize,
            first: b / 0x10 % 2 == 1,
            second: b / 8 % 2 == 1,
            motor: b / 2 % 4,
            zero: b / 1 % 2,
        },
    }
}
