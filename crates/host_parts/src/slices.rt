// Values as numbers, one behind the other, in a lent slice.
use solver_body::{BodyPair, RigidBody, SolverBody, SolverBodyInertia};
use std::slice::{Iter, IterMut};
use vector::{Quat, SymmetricTensor, Vec3};

// What is read past the end is zero. Each `read` that reads is in line, so that the compiler sees the length that `convert` has tested, and asks nowhere for the end.
pub trait FromNumbers: Sized {
    fn read(from: &mut Iter<'_, f32>) -> Self;
}

// Nothing is written past the end.
pub trait ToNumbers {
    fn write(self, to: &mut IterMut<'_, f32>);
}

// From so many numbers to so many: 1, and nothing is written, where a slice has another length, else 0. The lengths are no constants of the types, since a pair's
// would be a sum that has to be shown to fit.
pub fn convert<I: FromNumbers, O: ToNumbers, F: FnOnce(I) -> O>(
    input: &[f32],
    inputs: usize,
    output: &mut [f32],
    outputs: usize,
    f: F,
) -> u32
    requires { F.IsAlwaysCallable f }
{
    if input.len() != inputs || output.len() != outputs {
        return 1;
    }
    f(I::read(&mut input.iter())).write(&mut output.iter_mut());
    0
}

impl FromNumbers for () {
    fn read(_: &mut Iter<'_, f32>) {}
}

impl FromNumbers for f32 {
    #[inline(always)]
    fn read(from: &mut Iter<'_, f32>) -> f32 {
        from.next().copied().unwrap_or(0.0)
    }
}

impl ToNumbers for f32 {
    fn write(self, to: &mut IterMut<'_, f32>) {
        if let Some(x) = to.next() {
            *x = self;
        }
    }
}

// 1 where it holds.
impl ToNumbers for bool {
    fn write(self, to: &mut IterMut<'_, f32>) {
        let x: f32 = if self { 1.0 } else { 0.0 };
        x.write(to);
    }
}

impl<A: FromNumbers, B: FromNumbers> FromNumbers for (A, B) {
    #[inline(always)]
    fn read(from: &mut Iter<'_, f32>) -> (A, B) {
        (A::read(from), B::read(from))
    }
}

impl<A: FromNumbers, B: FromNumbers, C: FromNumbers> FromNumbers for (A, B, C) {
    #[inline(always)]
    fn read(from: &mut Iter<'_, f32>) -> (A, B, C) {
        (A::read(from), B::read(from), C::read(from))
    }
}

impl<A: FromNumbers, B: FromNumbers, C: FromNumbers, D: FromNumbers> FromNumbers for (A, B, C, D) {
    #[inline(always)]
    fn read(from: &mut Iter<'_, f32>) -> (A, B, C, D) {
        (A::read(from), B::read(from), C::read(from), D::read(from))
    }
}

impl<A: ToNumbers, B: ToNumbers> ToNumbers for (A, B) {
    fn write(self, to: &mut IterMut<'_, f32>) {
        self.0.write(to);
        self.1.write(to);
    }
}

impl<A: ToNumbers, B: ToNumbers, C: ToNumbers> ToNumbers for (A, B, C) {
    fn write(self, to: &mut IterMut<'_, f32>) {
        self.0.write(to);
        self.1.write(to);
        self.2.write(to);
    }
}

impl<A: ToNumbers, B: ToNumbers, C: ToNumbers, D: ToNumbers> ToNumbers for (A, B, C, D) {
    fn write(self, to: &mut IterMut<'_, f32>) {
        self.0.write(to);
        self.1.write(to);
        self.2.write(to);
        self.3.write(to);
    }
}

impl FromNumbers for Vec3 {
    #[inline(always)]
    fn read(from: &mut Iter<'_, f32>) -> Vec3 {
        let (x, y, z) = FromNumbers::read(from);
        Vec3 { x, y, z }
    }
}

impl ToNumbers for Vec3 {
    fn write(self, to: &mut IterMut<'_, f32>) {
        (self.x, self.y, self.z).write(to);
    }
}

impl FromNumbers for Quat {
    #[inline(always)]
    fn read(from: &mut Iter<'_, f32>) -> Quat {
        let (x, y, z, w) = FromNumbers::read(from);
        Quat { x, y, z, w }
    }
}

impl ToNumbers for Quat {
    fn write(self, to: &mut IterMut<'_, f32>) {
        (self.x, self.y, self.z, self.w).write(to);
    }
}

impl FromNumbers for SymmetricTensor {
    #[inline(always)]
    fn read(from: &mut Iter<'_, f32>) -> SymmetricTensor {
        let ((xx, xy, xz), (yy, yz, zz)) = FromNumbers::read(from);
        SymmetricTensor {
            xx,
            xy,
            xz,
            yy,
            yz,
            zz,
        }
    }
}

impl ToNumbers for SymmetricTensor {
    fn write(self, to: &mut IterMut<'_, f32>) {
        let rows = ((self.xx, self.xy, self.xz), (self.yy, self.yz, self.zz));
        rows.write(to);
    }
}

impl FromNumbers for RigidBody {
    #[inline(always)]
    fn read(from: &mut Iter<'_, f32>) -> RigidBody {
        let (position, rotation, center_of_mass) = FromNumbers::read(from);
        RigidBody {
            position,
            rotation,
            center_of_mass,
        }
    }
}

impl FromNumbers for SolverBody {
    #[inline(always)]
    fn read(from: &mut Iter<'_, f32>) -> SolverBody {
        let (linear_velocity, angular_velocity, delta_position, delta_rotation) = FromNumbers::read(
            from,
        );
        SolverBody {
            linear_velocity,
            angular_velocity,
            delta_position,
            delta_rotation,
        }
    }
}

impl ToNumbers for SolverBody {
    fn write(self, to: &mut IterMut<'_, f32>) {
        (self.linear_velocity, self.angular_velocity).write(to);
        (self.delta_position, self.delta_rotation).write(to);
    }
}

impl FromNumbers for BodyPair {
    #[inline(always)]
    fn read(from: &mut Iter<'_, f32>) -> BodyPair {
        let (body1, body2) = FromNumbers::read(from);
        BodyPair { body1, body2 }
    }
}

impl ToNumbers for BodyPair {
    fn write(self, to: &mut IterMut<'_, f32>) {
        (self.body1, self.body2).write(to);
    }
}

// Inverse mass and inverse inertia.
#[derive(Clone, Copy)]
pub struct Inertia(f32, SymmetricTensor);

impl FromNumbers for Inertia {
    #[inline(always)]
    fn read(from: &mut Iter<'_, f32>) -> Inertia {
        let (inv_mass, inv_angular_inertia) = FromNumbers::read(from);
        Inertia(inv_mass, inv_angular_inertia)
    }
}

impl Inertia {
    // The locks of x, y and z count 4, 2 and 1.
    pub fn locked(self, locks: u32) -> SolverBodyInertia {
        SolverBodyInertia {
            inv_mass: self.0,
            inv_angular_inertia: self.1,
            translation_x_locked: locks / 4 % 2 == 1,
            translation_y_locked: locks / 2 % 2 == 1,
            translation_z_locked: locks % 2 == 1,
        }
    }
}

// The locks as 0 or 1.
impl ToNumbers for SolverBodyInertia {
    fn write(self, to: &mut IterMut<'_, f32>) {
        (self.inv_mass, self.inv_angular_inertia).write(to);
        let locked = (
            self.translation_x_locked,
            self.translation_y_locked,
            self.translation_z_locked,
        );
        locked.write(to);
    }
}
