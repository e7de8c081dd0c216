// The remainder of two f32s, on their bit patterns by whole numbers: `%` of floats is a call of the C library's fmodf.
ghost use Rattle.std.specs.Prelude.{◌≡◌, ◌-◌, ◌*◌, ◌%◌, ◌^◌, ◌≤◌, ◌<◌, true};
ghost use Rattle.std.specs.Float.{binary32};
ghost use Rattle.std.specs.Float.Ieee.{to_bits, rem};
ghost use Rattle.root.specs.Parts.{sig_of, exp_of};
ghost use Rattle.scalar.specs.Scalar.{abs_of, is_finite};

use crate::{abs, is_finite, is_sign_negative};
use root::HIDDEN;

// The bit pattern of a finite number's size.
#[derive(Clone, Copy)]
struct Magnitude {
    bits: u32,
    ghost finite: { bits < 0x7f80_0000 },
}

impl Magnitude {
    fn of(x: f32) -> Self
        requires { is_finite x ≡ true }
        ensures { result.bits ≡ to_bits binary32 (abs_of x) }
    {
        Magnitude {
            bits: f32::to_bits(abs(x)),
        }
    }

    fn significand(self) -> u32
        ensures { (result ≡ sig_of self.bits) × (result < 2 ^ 24) }
    {
        if self.bits / HIDDEN == 0 {
            return self.bits % HIDDEN;
        }
        self.bits % HIDDEN + HIDDEN
    }

    fn exponent(self) -> u32
        ensures { (result ≡ exp_of self.bits) × (1 ≤ result) × (result < 255) }
    {
        if self.bits / HIDDEN == 0 {
            return 1;
        }
        self.bits / HIDDEN
    }

    // m · 2^(e - 1) units of 2^-149.
    fn packed(m: u32, e: u32) -> Self
        requires { (m < 2 ^ 24) × (1 ≤ e) × (e < 255) }
        ensures { sig_of result.bits * 2 ^ (exp_of result.bits - 1) ≡ m * 2 ^ (e - 1) }
    {
        let mut s = m;
        let mut k = e;
        while s < HIDDEN && k > 1 {
            s = 2 * s;
            k -= 1;
        }
        Magnitude {
            bits: (k - 1) * HIDDEN + s,
        }
    }

    // The remainder of two sizes.
    fn reduced(self, b: Magnitude) -> Self
        requires { 0 < b.bits }
        ensures { sig_of result.bits * 2 ^ (exp_of result.bits - 1) ≡ sig_of self.bits * 2 ^ (exp_of self.bits - 1) % (sig_of b.bits * 2 ^ (exp_of b.bits - 1)) }
    {
        let e = self.exponent();
        let f = b.exponent();
        if e < f {
            return self;
        }
        let m = moved_up(self.significand(), e - f, b.significand());
        Magnitude::packed(m, f)
    }
}

// m · 2^n modulo d, doubled n times.
fn moved_up(m: u32, n: u32, d: u32) -> u32
    requires { (0 < d) × (d < 2 ^ 24) }
    ensures { (result ≡ m * 2 ^ n % d) × (result < d) }
{
    let mut r = m % d;
    for _ in 0..n {
        r = 2 * r % d;
    }
    r
}

pub fn remainder(x: f32, y: f32) -> f32
    ensures { result ≡ rem binary32 x y }
{
    if !is_finite(x) {
        return 0.0 / 0.0;
    }
    if y != y {
        return y;
    }
    if !is_finite(y) {
        return x;
    }
    let b = Magnitude::of(y);
    if b.bits == 0 {
        return 0.0 / 0.0;
    }
    let v = f32::from_bits(Magnitude::of(x).reduced(b).bits);
    if is_sign_negative(x) { -v } else { v }
}
