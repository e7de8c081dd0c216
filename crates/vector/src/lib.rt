// Vectors, rotations, matrices and symmetric tensors of f32, by value, as document 01 has them under "Arithmetic beneath".
#![tactic(auto)]

ghost use Rattle.std.specs.Prelude.{◌≡◌, T};
ghost use Rattle.std.specs.Float.Ieee.{le};
ghost use Rattle.scalar.specs.Arith.{◌⊗◌, half};
ghost use Rattle.scalar.specs.Scalar.{abs_of};
ghost use Rattle.trig.specs.Sine.{sixteen};
ghost use Rattle.vector.specs.Vector.{add_of, sub_of, neg_of, scale_of, times_of, div_of, dot_of, cross_of, length_squared_of, length_of, max_element, clamp_length_max, signum, any_orthonormal, any_orthogonal};
ghost use Rattle.vector.specs.Matrix.{tensor_times, of_quat, matrix_times, transpose_of, turned_tensor};
ghost use Rattle.vector.specs.Rotation.{product_of, inverse_of, vector_part, turn_of, norm_squared_of, norm_of, divided_by, normalized, of_half, of_axis_angle, of_angle_in_reach, of_scaled_axis};

use root::sqrt;
use scalar::{abs, is_sign_negative, max};
use std::ops::{Add, AddAssign, Div, Mul, Neg, Sub, SubAssign};
use trig::{SinCos, sin_cos, sin_cos_in_reach};

#[derive(Clone, Copy)]
pub struct Vec3 {
    pub x: f32,
    pub y: f32,
    pub z: f32,
}

#[derive(Clone, Copy)]
pub struct Quat {
    pub x: f32,
    pub y: f32,
    pub z: f32,
    pub w: f32,
}

#[derive(Clone, Copy)]
pub struct Mat3 {
    pub x_axis: Vec3,
    pub y_axis: Vec3,
    pub z_axis: Vec3,
}

#[derive(Clone, Copy)]
pub struct SymmetricTensor {
    pub xx: f32,
    pub xy: f32,
    pub xz: f32,
    pub yy: f32,
    pub yz: f32,
    pub zz: f32,
}

// 1 or -1, by the sign bit.
#[tactic(auto, unfolding(crate::specs::Vector::signum))]
fn signum(x: f32) -> f32
    ensures { result ≡ signum x }
{
    if is_sign_negative(x) { -1.0 } else { 1.0 }
}

impl Add for Vec3 {
    type Output = Vec3;

    ghost add_gives = { λ a b r. r ≡ add_of a b };

    #[tactic(auto, unfolding(crate::specs::Vector::add_of))]
    fn add(self, b: Vec3) -> Vec3 {
        Vec3 {
            x: self.x + b.x,
            y: self.y + b.y,
            z: self.z + b.z,
        }
    }
}

impl AddAssign for Vec3 {
    ghost add_assign_gives = { λ a b r. r ≡ add_of a b };

    fn add_assign(&mut self, b: Vec3) {
        *self = *self + b;
    }
}

impl Sub for Vec3 {
    type Output = Vec3;

    ghost sub_gives = { λ a b r. r ≡ sub_of a b };

    #[tactic(auto, unfolding(crate::specs::Vector::sub_of))]
    fn sub(self, b: Vec3) -> Vec3 {
        Vec3 {
            x: self.x - b.x,
            y: self.y - b.y,
            z: self.z - b.z,
        }
    }
}

impl SubAssign for Vec3 {
    ghost sub_assign_gives = { λ a b r. r ≡ sub_of a b };

    fn sub_assign(&mut self, b: Vec3) {
        *self = *self - b;
    }
}

impl Neg for Vec3 {
    type Output = Vec3;

    ghost neg_gives = { λ a r. r ≡ neg_of a };

    #[tactic(auto, unfolding(crate::specs::Vector::neg_of))]
    fn neg(self) -> Vec3 {
        Vec3 {
            x: -self.x,
            y: -self.y,
            z: -self.z,
        }
    }
}

impl Mul<Vec3> for f32 {
    type Output = Vec3;

    ghost mul_gives = { λ k v r. r ≡ scale_of v k };

    #[tactic(auto, unfolding(crate::specs::Vector::scale_of))]
    fn mul(self, v: Vec3) -> Vec3 {
        Vec3 {
            x: self * v.x,
            y: self * v.y,
            z: self * v.z,
        }
    }
}

// A product of two f32s doesn't depend on their order (`times_comm` in scalar/proofs/Commute.antt).
impl Mul<f32> for Vec3 {
    type Output = Vec3;

    ghost mul_gives = { λ v k r. r ≡ scale_of v k };

    fn mul(self, k: f32) -> Vec3 {
        k * self
    }
}

// Component by component.
impl Mul<Vec3> for Vec3 {
    type Output = Vec3;

    ghost mul_gives = { λ a b r. r ≡ times_of a b };

    #[tactic(auto, unfolding(crate::specs::Vector::times_of))]
    fn mul(self, b: Vec3) -> Vec3 {
        Vec3 {
            x: self.x * b.x,
            y: self.y * b.y,
            z: self.z * b.z,
        }
    }
}

impl Div<f32> for Vec3 {
    type Output = Vec3;

    ghost div_gives = { λ v k r. r ≡ div_of v k };

    #[tactic(auto, unfolding(crate::specs::Vector::div_of))]
    fn div(self, k: f32) -> Vec3 {
        Vec3 {
            x: self.x / k,
            y: self.y / k,
            z: self.z / k,
        }
    }
}

impl Vec3 {
    pub const ZERO: Vec3 = Vec3 {
        x: 0.0,
        y: 0.0,
        z: 0.0,
    };

    #[tactic(auto, unfolding(crate::specs::Vector::dot_of))]
    pub fn dot(self, b: Vec3) -> f32
        ensures { result ≡ dot_of self b }
    {
        self.x * b.x + self.y * b.y + self.z * b.z
    }

    #[tactic(auto, unfolding(crate::specs::Vector::cross_of))]
    pub fn cross(self, b: Vec3) -> Vec3
        ensures { result ≡ cross_of self b }
    {
        Vec3 {
            x: self.y * b.z - b.y * self.z,
            y: self.z * b.x - b.z * self.x,
            z: self.x * b.y - b.x * self.y,
        }
    }

    #[tactic(auto, unfolding(crate::specs::Vector::length_squared_of))]
    pub fn length_squared(self) -> f32
        ensures { result ≡ length_squared_of self }
    {
        self.dot(self)
    }

    #[tactic(auto, unfolding(crate::specs::Vector::length_of))]
    pub fn length(self) -> f32
        ensures { result ≡ length_of self }
    {
        sqrt(self.length_squared())
    }

    #[tactic(auto, unfolding(crate::specs::Vector::max_element))]
    pub fn max_element(self) -> f32
        ensures { result ≡ max_element self }
    {
        max(self.x, max(self.y, self.z))
    }

    #[tactic(auto, unfolding(crate::specs::Vector::clamp_length_max, crate::specs::Vector::length_of))]
    pub fn clamp_length_max(self, longest: f32) -> Vec3
        ensures { result ≡ clamp_length_max self longest }
    {
        let length_squared = self.length_squared();
        if length_squared > longest * longest {
            return self / sqrt(length_squared) * longest;
        }
        self
    }

    #[tactic(auto, unfolding(crate::specs::Vector::any_orthonormal))]
    pub fn any_orthonormal_vector(self) -> Vec3
        ensures { result ≡ any_orthonormal self }
    {
        let sign = signum(self.z);
        let a = -1.0 / (sign + self.z);
        let b = self.x * self.y * a;
        Vec3 {
            x: b,
            y: sign + self.y * self.y * a,
            z: -self.y,
        }
    }

    #[tactic(auto, unfolding(crate::specs::Vector::any_orthogonal))]
    pub fn any_orthogonal_vector(self) -> Vec3
        ensures { result ≡ any_orthogonal self }
    {
        if abs(self.x) > abs(self.y) {
            return Vec3 {
                x: -self.z,
                y: 0.0,
                z: self.x,
            };
        }
        Vec3 {
            x: 0.0,
            y: self.z,
            z: -self.y,
        }
    }
}

impl Mul<Vec3> for SymmetricTensor {
    type Output = Vec3;

    ghost mul_gives = { λ t v r. r ≡ tensor_times t v };

    #[tactic(auto, unfolding(crate::specs::Matrix::tensor_times))]
    fn mul(self, v: Vec3) -> Vec3 {
        Vec3 {
            x: self.xx * v.x + self.xy * v.y + self.xz * v.z,
            y: self.xy * v.x + self.yy * v.y + self.yz * v.z,
            z: self.xz * v.x + self.yz * v.y + self.zz * v.z,
        }
    }
}

impl SymmetricTensor {
    pub const ZERO: SymmetricTensor = SymmetricTensor {
        xx: 0.0,
        xy: 0.0,
        xz: 0.0,
        yy: 0.0,
        yz: 0.0,
        zz: 0.0,
    };

    // R T Rᵀ, with R the rotation's matrix and the left product first.
    #[tactic(auto, unfolding(crate::specs::Matrix::turned_tensor))]
    pub fn turned(self, rotation: Quat) -> SymmetricTensor
        ensures { result ≡ turned_tensor rotation self }
    {
        let rows = Mat3::from_quat(rotation).transpose();
        let m1 = self * rows.x_axis;
        let m2 = self * rows.y_axis;
        let m3 = self * rows.z_axis;
        SymmetricTensor {
            xx: m1.dot(rows.x_axis),
            xy: m1.dot(rows.y_axis),
            xz: m1.dot(rows.z_axis),
            yy: m2.dot(rows.y_axis),
            yz: m2.dot(rows.z_axis),
            zz: m3.dot(rows.z_axis),
        }
    }
}

impl Mul<Quat> for Quat {
    type Output = Quat;

    ghost mul_gives = { λ a b r. r ≡ product_of a b };

    #[tactic(auto, unfolding(crate::specs::Rotation::product_of))]
    fn mul(self, b: Quat) -> Quat {
        Quat {
            x: self.w * b.x + self.x * b.w + self.y * b.z - self.z * b.y,
            y: self.w * b.y - self.x * b.z + self.y * b.w + self.z * b.x,
            z: self.w * b.z + self.x * b.y - self.y * b.x + self.z * b.w,
            w: self.w * b.w - self.x * b.x - self.y * b.y - self.z * b.z,
        }
    }
}

impl Mul<Vec3> for Quat {
    type Output = Vec3;

    ghost mul_gives = { λ q v r. r ≡ turn_of q v };

    #[tactic(auto, unfolding(crate::specs::Rotation::turn_of))]
    fn mul(self, v: Vec3) -> Vec3 {
        let b = self.xyz();
        let w = self.w;
        v * (w * w - b.dot(b)) + b * (v.dot(b) * 2.0) + b.cross(v) * (w * 2.0)
    }
}

impl Div<f32> for Quat {
    type Output = Quat;

    ghost div_gives = { λ q k r. r ≡ divided_by q k };

    #[tactic(auto, unfolding(crate::specs::Rotation::divided_by))]
    fn div(self, k: f32) -> Quat {
        Quat {
            x: self.x / k,
            y: self.y / k,
            z: self.z / k,
            w: self.w / k,
        }
    }
}

impl Quat {
    pub const IDENTITY: Quat = Quat {
        x: 0.0,
        y: 0.0,
        z: 0.0,
        w: 1.0,
    };

    #[tactic(auto, unfolding(crate::specs::Rotation::inverse_of))]
    pub fn inverse(self) -> Quat
        ensures { result ≡ inverse_of self }
    {
        Quat {
            x: -self.x,
            y: -self.y,
            z: -self.z,
            w: self.w,
        }
    }

    #[tactic(auto, unfolding(crate::specs::Rotation::vector_part))]
    pub fn xyz(self) -> Vec3
        ensures { result ≡ vector_part self }
    {
        Vec3 {
            x: self.x,
            y: self.y,
            z: self.z,
        }
    }

    pub fn length_squared(self) -> f32
        ensures { result ≡ norm_squared_of self }
    {
        self.x * self.x + self.y * self.y + self.z * self.z + self.w * self.w
    }

    #[tactic(auto, unfolding(crate::specs::Rotation::norm_of))]
    pub fn length(self) -> f32
        ensures { result ≡ norm_of self }
    {
        sqrt(self.length_squared())
    }

    #[tactic(auto, unfolding(crate::specs::Rotation::normalized))]
    pub fn normalize(self) -> Quat
        ensures { result ≡ normalized self }
    {
        self / self.length()
    }

    // From the sine and the cosine of half an angle.
    fn from_half(axis: Vec3, half_angle: SinCos) -> Quat
        ensures { result ≡ of_half axis half_angle.sin half_angle.cos }
    {
        Quat {
            x: axis.x * half_angle.sin,
            y: axis.y * half_angle.sin,
            z: axis.z * half_angle.sin,
            w: half_angle.cos,
        }
    }

    #[tactic(auto, unfolding(crate::specs::Rotation::of_axis_angle))]
    pub fn from_axis_angle(axis: Vec3, angle: f32) -> Quat
        ensures { result ≡ of_axis_angle axis angle }
    {
        Quat::from_half(axis, sin_cos(angle * 0.5))
    }

    // Where half the angle is at most 16 in size.
    #[tactic(auto, unfolding(crate::specs::Rotation::of_angle_in_reach))]
    pub fn from_angle_in_reach(axis: Vec3, angle: f32) -> Quat
        requires { T (le (abs_of (angle ⊗ half)) sixteen) }
        ensures { result ≡ of_angle_in_reach axis angle }
    {
        Quat::from_half(axis, sin_cos_in_reach(angle * 0.5))
    }

    #[tactic(auto, unfolding(crate::specs::Rotation::of_scaled_axis))]
    pub fn from_scaled_axis(v: Vec3) -> Quat
        ensures { result ≡ of_scaled_axis v }
    {
        let length = v.length();
        if length == 0.0 {
            return Quat::IDENTITY;
        }
        Quat::from_axis_angle(v / length, length)
    }
}

impl Mat3 {
    #[tactic(auto, unfolding(crate::specs::Matrix::of_quat))]
    pub fn from_quat(q: Quat) -> Mat3
        ensures { result ≡ of_quat q }
    {
        let x2 = q.x + q.x;
        let y2 = q.y + q.y;
        let z2 = q.z + q.z;
        Mat3 {
            x_axis: Vec3 {
                x: 1.0 - (q.y * y2 + q.z * z2),
                y: q.x * y2 + q.w * z2,
                z: q.x * z2 - q.w * y2,
            },
            y_axis: Vec3 {
                x: q.x * y2 - q.w * z2,
                y: 1.0 - (q.x * x2 + q.z * z2),
                z: q.y * z2 + q.w * x2,
            },
            z_axis: Vec3 {
                x: q.x * z2 + q.w * y2,
                y: q.y * z2 - q.w * x2,
                z: 1.0 - (q.x * x2 + q.y * y2),
            },
        }
    }

    #[tactic(auto, unfolding(crate::specs::Matrix::transpose_of))]
    pub fn transpose(self) -> Mat3
        ensures { result ≡ transpose_of self }
    {
        let x = self.x_axis;
        let y = self.y_axis;
        let z = self.z_axis;
        Mat3 {
            x_axis: Vec3 {
                x: x.x,
                y: y.x,
                z: z.x,
            },
            y_axis: Vec3 {
                x: x.y,
                y: y.y,
                z: z.y,
            },
            z_axis: Vec3 {
                x: x.z,
                y: y.z,
                z: z.z,
            },
        }
    }
}

impl Mul<Vec3> for Mat3 {
    type Output = Vec3;

    ghost mul_gives = { λ m v r. r ≡ matrix_times m v };

    #[tactic(auto, unfolding(crate::specs::Matrix::matrix_times))]
    fn mul(self, v: Vec3) -> Vec3 {
        self.x_axis * v.x + self.y_axis * v.y + self.z_axis * v.z
    }
}
