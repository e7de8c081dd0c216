// Sine, cosine, arctangent and arc sine of an f32, by two tables of 1,025 whole numbers.
#![tactic(auto)]

ghost use Rattle.std.specs.Prelude.{◌≡◌, ◌+◌, ◌<◌, ◌≤◌, T, pos};
ghost use Rattle.std.specs.Float.Ieee.{le};
ghost use Rattle.scalar.specs.Arith.{f1};
ghost use Rattle.scalar.specs.Scalar.{abs_of};
ghost use Rattle.trig.specs.Interpolation.{interpolated, over_unit};
ghost use Rattle.trig.specs.Sine.{sixteen, scaled_of, step_of, fraction_of, table_sine, sin_in_reach, cos_in_reach, sin_of, cos_of};
ghost use Rattle.trig.specs.Arctangent.{atan_at, atan_of, quadrant_angle, half_plane_angle, angle_of, atan2_of, within_one, asin_of};
ghost use Rattle.trig.specs.Parts.{signed, QuarterAt, Point};

use root::sqrt;
use scalar::{PI, abs, is_finite, is_sign_negative};
use trig_tables::{arctangent_at, sine_at};

const FRAC_PI_2: f32 = 1.5707964;

// 2^-6: from here on the tables are used.
const SIXTY_FOURTH: f32 = 0.015625;

// Between two entries at the fraction f / 65536, and then / 64.
fn interpolate(t: u32, u: u32, f: u64) -> u32
    requires { (t ≤ 1073741824) × (u ≤ 1073741824) × (f < 65536) }
    ensures { (pos result ≡ interpolated 65536 (pos t) (pos u) f) × (result ≤ 16777216) }
{
    let a = t as u64;
    let b = u as u64;
    if a <= b {
        ((a + (b - a) * f / 65536) / 64) as u32
    } else {
        ((a - (a - b) * f / 65536) / 64) as u32
    }
}

// A whole number of either sign, over 2^24.
fn over_unit(negative: bool, m: u32) -> f32
    requires { m ≤ 16777216 }
    ensures { result ≡ over_unit (signed negative m) }
{
    let v = m as f32 / 16777216.0;
    if negative && m > 0 { -v } else { v }
}

// floor(x·2^24) of a size.
#[tactic(auto, using(crate::proofs::ScaledFloor::scales), unfolding(crate::specs::Sine::scaled_of))]
fn scaled(x: f32) -> u64
    requires { (T (le x sixteen)) × (x ≡ abs_of x) }
    ensures { (result ≡ scaled_of x) × (result ≤ 268435456) }
{
    std::num::truncating_f32_to_u64(x * 16777216.0)
}

// A quarter of the wave at one fraction: sizes on the way up and on the way down.
#[derive(Clone, Copy)]
struct Sizes {
    rising: u32,
    falling: u32,
}

#[tactic(auto, using(crate::proofs::CarriedTable::sine_small))]
fn quarter(i: usize, f: u64) -> Sizes
    requires { (i < 1024) × (f < 65536) }
    ensures { QuarterAt i f result.rising result.falling }
{
    Sizes {
        rising: interpolate(sine_at(i), sine_at(i + 1), f),
        falling: interpolate(sine_at(1024 - i), sine_at(1023 - i), f),
    }
}

#[derive(Clone, Copy)]
pub struct SinCos {
    pub sin: f32,
    pub cos: f32,
}

// By the table, at a turn of q / 65536 steps.
fn table_sin_cos(q: u64) -> SinCos
    ensures { (result.sin ≡ table_sine (step_of q) (fraction_of q)) × (result.cos ≡ table_sine (step_of q + 1024) (fraction_of q)) }
{
    let s = q / 65536 % 4096;
    let w = quarter((s % 1024) as usize, q % 65536);
    match s / 1024 {
        0 => SinCos {
            sin: over_unit(false, w.rising),
            cos: over_unit(false, w.falling),
        },
        1 => SinCos {
            sin: over_unit(false, w.falling),
            cos: over_unit(true, w.rising),
        },
        2 => SinCos {
            sin: over_unit(true, w.rising),
            cos: over_unit(true, w.falling),
        },
        _ => SinCos {
            sin: over_unit(true, w.falling),
            cos: over_unit(false, w.rising),
        },
    }
}

// Of an angle of at most 16 in size.
#[tactic(auto, unfolding(crate::specs::Sine::sin_in_reach, crate::specs::Sine::cos_in_reach, crate::specs::Sine::sin_small, crate::specs::Sine::cos_small))]
pub fn sin_cos_in_reach(a: f32) -> SinCos
    requires { T (le (abs_of a) sixteen) }
    ensures { (result.sin ≡ sin_in_reach a) × (result.cos ≡ cos_in_reach a) }
{
    let x = abs(a);
    if x < SIXTY_FOURTH {
        return SinCos {
            sin: a - a * a * a / 6.0,
            cos: 1.0 - a * a / 2.0,
        };
    }
    // In 65,536ths of a step of π/2048: 8589934592 is 2^33, and 3373259426 is π·2^30 to the nearest.
    let q = scaled(x) * 8589934592 / 3373259426;
    // Two calls, so that the compiler keeps the table out of line and puts the small angles into each caller.
    if a < 0.0 {
        let w = table_sin_cos(q);
        return SinCos { sin: -w.sin, ..w };
    }
    table_sin_cos(q)
}

#[tactic(auto, using(laws::proofs::Quotient::zero_over_zero), unfolding(crate::specs::Sine::sin_of, crate::specs::Sine::cos_of))]
pub fn sin_cos(a: f32) -> SinCos
    ensures { (result.sin ≡ sin_of a) × (result.cos ≡ cos_of a) }
{
    if abs(a) <= 16.0 {
        return sin_cos_in_reach(a);
    }
    SinCos {
        sin: 0.0 / 0.0,
        cos: 0.0 / 0.0,
    }
}

// The arctangent's table at k / 2^24.
fn atan_at(k: u64) -> u32
    ensures { (pos result ≡ atan_at k) × (result ≤ 16777216) }
{
    if k < 16777216 {
        let i = (k / 16384) as usize;
        interpolate(arctangent_at(i), arctangent_at(i + 1), k % 16384 * 4)
    } else {
        arctangent_at(1024) / 64
    }
}

// The arctangent of a number from 0 to 1.
#[tactic(auto, using(crate::proofs::ScaledFloor::one_sixteen), unfolding(crate::specs::Arctangent::atan_of, crate::specs::Arctangent::atan_small))]
fn atan(t: f32) -> f32
    requires { (T (le t f1)) × (t ≡ abs_of t) }
    ensures { result ≡ atan_of t }
{
    if t < SIXTY_FOURTH {
        t - t * t * t / 3.0
    } else {
        over_unit(false, atan_at(scaled(t)))
    }
}

// The angle of the point (w, h), both sizes.
#[tactic(auto, unfolding(crate::specs::Arctangent::quadrant_angle))]
fn quadrant_angle(h: f32, w: f32) -> f32
    requires { Point h w }
    ensures { result ≡ quadrant_angle h w }
{
    if w < h {
        FRAC_PI_2 - atan(w / h)
    } else {
        atan(h / w)
    }
}

// The angle of the point (x, h), h a size.
#[tactic(auto, unfolding(crate::specs::Arctangent::half_plane_angle))]
fn half_plane_angle(h: f32, x: f32) -> f32
    requires { Point h (abs_of x) }
    ensures { result ≡ half_plane_angle h x }
{
    let r = quadrant_angle(h, abs(x));
    if x < 0.0 { PI - r } else { r }
}

// The angle of the point (x, y), finite and not the origin.
#[tactic(auto, unfolding(crate::specs::Arctangent::angle_of))]
fn angle(y: f32, x: f32) -> f32
    requires { Point (abs_of y) (abs_of x) }
    ensures { result ≡ angle_of y x }
{
    let r = half_plane_angle(abs(y), x);
    if is_sign_negative(y) { -r } else { r }
}

#[tactic(auto, using(laws::proofs::Quotient::zero_over_zero), unfolding(crate::specs::Arctangent::atan2_of))]
pub fn atan2(y: f32, x: f32) -> f32
    ensures { result ≡ atan2_of y x }
{
    if !is_finite(y) || !is_finite(x) {
        return 0.0 / 0.0;
    }
    if y == 0.0 && x == 0.0 {
        return 0.0;
    }
    angle(y, x)
}

// An arc sine's argument: a finite number above 1 in size is read as 1 with its sign.
#[tactic(auto, unfolding(crate::specs::Arctangent::within_one))]
fn within_one(v: f32) -> f32
    ensures { result ≡ within_one v }
{
    if abs(v) > 1.0 && is_finite(v) {
        if v < 0.0 { -1.0 } else { 1.0 }
    } else {
        v
    }
}

#[tactic(auto, unfolding(crate::specs::Arctangent::asin_of))]
pub fn asin(v: f32) -> f32
    ensures { result ≡ asin_of v }
{
    let u = within_one(v);
    atan2(u, sqrt((1.0 - u) * (1.0 + u)))
}
