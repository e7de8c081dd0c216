// Bits, floats and vectors of a record, most significant bit first.
ghost use Rattle.std.specs.Prelude.{◌≡◌, ◌+◌, ◌*◌, ◌≤◌, ◌<◌, length};
ghost use Rattle.card.specs.Format.{bits_at};
ghost use Rattle.card.specs.Parts.{float_at, vec3_at, quat_at};

use scalar::from_bits;
use vector::{Quat, Vec3};

// Each by the shorter one and a byte more, as the definition has its bits: from a library's number of so many bytes to these a law would be needed that is longer than
// the three functions.
pub fn bits8_at(part: &[u8], at: usize) -> u32
    requires { at < length part.now }
    ensures { result ≡ bits_at part.now (8 * at) 8 }
{
    part[at] as u32
}

#[tactic(auto, using(crate::proofs::Packed::below))]
pub fn bits16_at(part: &[u8], at: usize) -> u32
    requires { at + 2 ≤ length part.now }
    ensures { result ≡ bits_at part.now (8 * at) 16 }
{
    bits8_at(part, at) * 256 + bits8_at(part, at + 1)
}

#[tactic(auto, using(crate::proofs::Packed::below))]
pub fn bits24_at(part: &[u8], at: usize) -> u32
    requires { at + 3 ≤ length part.now }
    ensures { result ≡ bits_at part.now (8 * at) 24 }
{
    bits16_at(part, at) * 256 + bits8_at(part, at + 2)
}

#[tactic(auto, using(crate::proofs::Packed::below))]
pub fn bits32_at(part: &[u8], at: usize) -> u32
    requires { at + 4 ≤ length part.now }
    ensures { result ≡ bits_at part.now (8 * at) 32 }
{
    bits24_at(part, at) * 256 + bits8_at(part, at + 3)
}

#[tactic(auto, unfolding(crate::specs::Parts::float_at))]
pub fn float_at(part: &[u8], at: usize) -> f32
    requires { at + 4 ≤ length part.now }
    ensures { result ≡ float_at part.now at }
{
    from_bits(bits32_at(part, at))
}

// This and the next one by place: a trait for two types, which nothing else here reads, would be longer than both.
#[tactic(auto, unfolding(crate::specs::Parts::vec3_at))]
pub fn vec3_at(part: &[u8], at: usize) -> Vec3
    requires { at + 12 ≤ length part.now }
    ensures { result ≡ vec3_at part.now at }
{
    Vec3 {
        x: float_at(part, at),
        y: float_at(part, at + 4),
        z: float_at(part, at + 8),
    }
}

#[tactic(auto, unfolding(crate::specs::Parts::quat_at))]
pub fn quat_at(part: &[u8], at: usize) -> Quat
    requires { at + 16 ≤ length part.now }
    ensures { result ≡ quat_at part.now at }
{
    Quat {
        x: float_at(part, at),
        y: float_at(part, at + 4),
        z: float_at(part, at + 8),
        w: float_at(part, at + 12),
    }
}
