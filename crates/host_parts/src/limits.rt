// Limits and motors.
ghost use Rattle.std.specs.Prelude.{IfSome};
ghost use Rattle.joints.specs.Reach.{InReach};

use crate::slices::{FromNumbers, ToNumbers, convert};
use joints::motor::{AngularMotor, LinearMotor, Motor, MotorModel};
use joints::{AngleCorrection, AngleLimit, DistanceLimit};
use scalar::abs;
use std::slice::{Iter, IterMut};
use vector::Vec3;

impl FromNumbers for DistanceLimit {
    #[inline(always)]
    fn read(from: &mut Iter<'_, f32>) -> DistanceLimit {
        let (min, max) = FromNumbers::read(from);
        DistanceLimit { min, max }
    }
}

// A limit, a separation, an axis (8) to the correction's direction and magnitude, and the correction along the axis (7).
#[unsafe(no_mangle)]
pub extern "C" fn linkage_distance_limit(input: &[f32], output: &mut [f32]) -> u32 {
    convert(
        input,
        8,
        output,
        7,
        |(limit, separation, axis): (DistanceLimit, Vec3, Vec3)| {
            let correction = limit.compute_correction(separation);
            (
                correction.direction,
                correction.magnitude,
                limit.compute_correction_along_axis(separation, axis),
            )
        },
    )
}

// 1 and the correction, or zeros where there is none.
impl ToNumbers for AngleCorrection {
    fn write(self, to: &mut IterMut<'_, f32>) {
        match self {
            AngleCorrection::Some(v) => (true, v).write(to),
            AngleCorrection::None => (false, Vec3::ZERO).write(to),
        }
    }
}

// A limit that is over 7 in size is none: no card has it.
pub fn angle_limit(limited: bool, min: f32, max: f32) -> Option<AngleLimit>
    ensures { IfSome result InReach }
{
    if limited && abs(min) <= 7.0 && abs(max) <= 7.0 {
        Some(AngleLimit { min, max })
    } else {
        None
    }
}

// A limit, a limit axis, two axes, the longest correction (12) to 1 and the correction, or to zeros (4); 2 where the limit is over 7 in size.
#[unsafe(no_mangle)]
pub extern "C" fn linkage_angle_limit(input: &[f32], output: &mut [f32]) -> u32 {
    if input.len() != 12 || output.len() != 4 {
        return 1;
    }
    let from = &mut input.iter();
    let (min, max) = FromNumbers::read(from);
    let Some(limit) = angle_limit(true, min, max) else {
        return 2;
    };
    let (limit_axis, axis1, axis2, longest) = FromNumbers::read(from);
    limit
        .compute_correction(limit_axis, axis1, axis2, longest)
        .write(&mut output.iter_mut());
    0
}

// A motor of the card: target velocity and position, cap, two model numbers.
#[derive(Clone, Copy)]
pub struct MotorNumbers {
    target_velocity: f32,
    target_position: f32,
    cap: f32,
    model: (f32, f32),
}

impl FromNumbers for MotorNumbers {
    #[inline(always)]
    fn read(from: &mut Iter<'_, f32>) -> MotorNumbers {
        let (target_velocity, target_position, cap, model) = FromNumbers::read(from);
        MotorNumbers {
            target_velocity,
            target_position,
            cap,
            model,
        }
    }
}

impl MotorNumbers {
    // The card's 1, 2 and 3; any other is as 3. As in the loader, whose numbers are bytes.
    fn motor_model(self, model: u32) -> MotorModel {
        let (a, b) = self.model;
        match model {
            1 => MotorModel::SpringDamper {
                frequency: a,
                damping_ratio: b,
            },
            2 => MotorModel::AccelerationBased {
                stiffness: a,
                damping: b,
            },
            _ => MotorModel::ForceBased {
                stiffness: a,
                damping: b,
            },
        }
    }

    // 0 is none. By kind, and the models by number, as in the loader: avian's two structs name their caps.
    pub fn angular(self, model: u32) -> AngularMotor {
        AngularMotor {
            enabled: model != 0,
            target_velocity: self.target_velocity,
            target_position: self.target_position,
            max_torque: self.cap,
            motor_model: self.motor_model(model),
        }
    }

    pub fn linear(self, model: u32) -> LinearMotor {
        LinearMotor {
            enabled: model != 0,
            target_velocity: self.target_velocity,
            target_position: self.target_position,
            max_force: self.cap,
            motor_model: self.motor_model(model),
        }
    }
}

// 1 and the multiplier, or zeros where there is none.
impl ToNumbers for Option<f32> {
    fn write(self, to: &mut IterMut<'_, f32>) {
        match self {
            Some(delta_lagrange) => (true, delta_lagrange).write(to),
            None => (false, false).write(to),
        }
    }
}

// A motor's 5 numbers, the errors of velocity and position, w_sum, dt (9) to 1 and the multiplier, or to zeros: as an angular motor and as a
// linear one (4).
#[unsafe(no_mangle)]
pub extern "C" fn linkage_motor(model: u32, input: &[f32], output: &mut [f32]) -> u32 {
    convert(
        input,
        9,
        output,
        4,
        |(motor, (velocity_error, position_error), w_sum, dt): (
            MotorNumbers,
            (f32, f32),
            f32,
            f32,
        )| {
            (
                motor
                    .angular(model)
                    .compute_lagrange(velocity_error, position_error, w_sum, dt),
                motor
                    .linear(model)
                    .compute_lagrange(velocity_error, position_error, w_sum, dt),
            )
        },
    )
}
