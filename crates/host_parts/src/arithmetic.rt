// Scalars, vectors and rotations.
ghost use Rattle.std.specs.Prelude.{◌≡◌};
ghost use Rattle.root.specs.Root.{root_of};
ghost use Rattle.trig.specs.Sine.{sin_of, cos_of};
ghost use Rattle.trig.specs.Arctangent.{atan2_of, asin_of};
ghost use Rattle.scalar.specs.Scalar.{sign_bit, abs_of, clamp_of, rem_euclid_of};

use crate::slices::convert;
use vector::{Mat3, Quat, SymmetricTensor, Vec3};

#[unsafe(no_mangle)]
pub extern "C" fn linkage_abs(x: f32) -> f32
    ensures { result ≡ abs_of x }
{
    scalar::abs(x)
}

#[unsafe(no_mangle)]
pub extern "C" fn linkage_is_sign_negative(x: f32) -> bool
    ensures { result ≡ sign_bit x }
{
    scalar::is_sign_negative(x)
}

#[unsafe(no_mangle)]
pub extern "C" fn linkage_clamp(x: f32, low: f32, high: f32) -> f32
    ensures { result ≡ clamp_of x low high }
{
    scalar::clamp(x, low, high)
}

#[unsafe(no_mangle)]
pub extern "C" fn linkage_rem_euclid(x: f32, divisor: f32) -> f32
    ensures { result ≡ rem_euclid_of x divisor }
{
    scalar::rem_euclid(x, divisor)
}

#[unsafe(no_mangle)]
pub extern "C" fn linkage_sqrt(x: f32) -> f32
    ensures { result ≡ root_of x }
{
    root::sqrt(x)
}

#[unsafe(no_mangle)]
pub extern "C" fn linkage_sin(a: f32) -> f32
    ensures { result ≡ sin_of a }
{
    trig::sin_cos(a).sin
}

#[unsafe(no_mangle)]
pub extern "C" fn linkage_cos(a: f32) -> f32
    ensures { result ≡ cos_of a }
{
    trig::sin_cos(a).cos
}

#[unsafe(no_mangle)]
pub extern "C" fn linkage_atan2(y: f32, x: f32) -> f32
    ensures { result ≡ atan2_of y x }
{
    trig::atan2(y, x)
}

#[unsafe(no_mangle)]
pub extern "C" fn linkage_asin(v: f32) -> f32
    ensures { result ≡ asin_of v }
{
    trig::asin(v)
}

// A vector, a vector, a number (7) to their sum, difference, product by components, cross and dot product; of the first and the number, the
// multiple, the quotient and the length clamp; of the first, its negation, self dot, length, largest component, an orthonormal and an
// orthogonal vector (34).
#[unsafe(no_mangle)]
pub extern "C" fn linkage_vectors(input: &[f32], output: &mut [f32]) -> u32 {
    convert(input, 7, output, 34, |(a, b, k): (Vec3, Vec3, f32)| {
        (
            (a + b, a - b, a * b),
            (a.cross(b), a.dot(b)),
            (a * k, a / k, a.clamp_length_max(k), -a),
            (
                (a.length_squared(), a.length(), a.max_element()),
                (a.any_orthonormal_vector(), a.any_orthogonal_vector()),
            ),
        )
    })
}

// A rotation, a rotation, a vector, an angle (12) to the product, the first's inverse, the vector turned by the first, the first's length,
// the first divided by its length, the rotations about the vector by the angle and of the scaled axis (24).
#[unsafe(no_mangle)]
pub extern "C" fn linkage_rotations(input: &[f32], output: &mut [f32]) -> u32 {
    convert(
        input,
        12,
        output,
        24,
        |(a, b, v, angle): (Quat, Quat, Vec3, f32)| {
            (
                (a * b, a.inverse(), a * v),
                (a.length(), a.normalize()),
                (Quat::from_axis_angle(v, angle), Quat::from_scaled_axis(v)),
            )
        },
    )
}

// A rotation, a symmetric tensor, a vector (13) to the rotation's matrix by columns, the vector by the matrix, the vector by the tensor, the tensor turned
// by the rotation (21).
#[unsafe(no_mangle)]
pub extern "C" fn linkage_matrices(input: &[f32], output: &mut [f32]) -> u32 {
    convert(
        input,
        13,
        output,
        21,
        |(q, t, v): (Quat, SymmetricTensor, Vec3)| {
            let m = Mat3::from_quat(q);
            ((m.x_axis, m.y_axis, m.z_axis), (m * v, t * v, t.turned(q)))
        },
    )
}
