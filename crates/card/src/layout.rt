// The sizes of document 01, 'The card' and 'Turned back', in bytes, and where each field stands in its record.
use scalar::MAX;

// Of a card of any edition.
pub const LEAST_BYTES: usize = 12;

pub const BODY_BYTES: usize = 94;

pub const SLOWEST: u32 = 16;

// From the header's end back, in every edition.
pub const GRAVITY: usize = 8;

pub const WARM_COEFFICIENT: usize = 4;

pub const POSITION: usize = 2;

pub const ROTATION: usize = 14;

pub const CENTER_OF_MASS: usize = 30;

pub const LINEAR_VELOCITY: usize = 42;

pub const ANGULAR_VELOCITY: usize = 54;

pub const INV_MASS: usize = 66;

pub const INV_INERTIA: usize = 70;

pub const ANCHOR1: usize = 3;

pub const BASIS1: usize = 27;

pub const BASIS2: usize = 43;

pub const AXIS: usize = 59;

pub const COMPLIANCES: usize = 71;

pub const LIMIT1: usize = 87;

pub const LIMIT2: usize = 95;

pub const MOTOR: usize = 103;

// In the editions that have it.
pub const BREAKING_LOAD: usize = 123;

// What a float may be.
#[derive(Clone, Copy)]
pub struct Bounds {
    pub low: f32,
    pub high: f32,
}

pub const BOUNDED: Bounds = Bounds {
    low: -1024.0,
    high: 1024.0,
};

pub const NOT_NEGATIVE: Bounds = Bounds {
    low: 0.0,
    high: 1024.0,
};

pub const CAP: Bounds = Bounds {
    low: 0.0,
    high: MAX,
};

// The largest size of an angle limit.
pub const WIDEST_ANGLE: f32 = 7.0;
