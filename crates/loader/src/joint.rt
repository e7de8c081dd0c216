// A joint of the card, as the solver reads it.
ghost use Rattle.std.specs.Prelude.{◌≡◌, ◌+◌, ◌≤◌, ◌<◌, ltb, List, length, ℕ, Some, None, if◌then◌else◌};
ghost use Rattle.card.specs.Format.{numbers_at};
ghost use Rattle.card.specs.Card.{at, edition_of};
ghost use Rattle.card.specs.Parts.{edition_number, sizes_of, joint_bits, float_at, vec3_at, quat_at};
ghost use Rattle.loader.specs.Linkage.{model_in, angular_motor_in, linear_motor_in, fixed_in, revolute_in, prismatic_in, spherical_in, distance_in, kind_in, breaking_load_of, joint_of};
ghost use Rattle.loader.specs.Parts.{joint_floats};

use card::bits::{float_at, quat_at, vec3_at};
use card::edition::Edition;
use card::layout::{
    ANCHOR1, AXIS, BASIS1, BASIS2, BREAKING_LOAD, COMPLIANCES, LIMIT1, LIMIT2, MOTOR,
};
use card::records::{JointBits, JointRecord, joint_bits};
use joints::distance::DistanceJoint;
use joints::fixed::FixedJoint;
use joints::motor::{AngularMotor, LinearMotor, MotorModel};
use joints::prismatic::PrismaticJoint;
use joints::revolute::RevoluteJoint;
use joints::spherical::SphericalJoint;
use joints::{AngleLimit, DistanceLimit, Joint, JointFrame};
use scalar::abs;
use vector::Vec3;

#[derive(Clone, Copy)]
pub struct LinkJoint {
    // Where its bodies stand among the linkage's.
    pub body1: usize,
    pub body2: usize,
    pub joint: Joint,
    // In size; zero for one that never breaks.
    pub breaking_load: f32,
}

impl LinkJoint {
    // What a slice of joints is made of before it is loaded.
    pub const DUMMY: LinkJoint = LinkJoint {
        body1: 0,
        body2: 0,
        joint: Joint::Distance(DistanceJoint {
            anchor1: Vec3::ZERO,
            anchor2: Vec3::ZERO,
            limits: DistanceLimit::ZERO,
            compliance: 0.0,
        }),
        breaking_load: 0.0,
    };
}

const ANCHOR2: usize = ANCHOR1 + 12;

// A joint's own part of a card, and the numbers that it begins with.
#[derive(Clone, Copy)]
struct JointFields<'a> {
    part: JointRecord<'a>,
    // Clauses take any numbers with these bits: a ghost field that ties them to the bytes needs the edition too, and each clause would spell its record out.
    bits: JointBits,
}

#[tactic(auto, unfolding(crate::specs::Linkage::model_in, crate::specs::Linkage::angular_motor_in, crate::specs::Linkage::linear_motor_in, crate::specs::Linkage::fixed_in, crate::specs::Linkage::revolute_in, crate::specs::Linkage::prismatic_in, crate::specs::Linkage::spherical_in, crate::specs::Linkage::distance_in, crate::specs::Linkage::kind_in, numbers::specs::Lists::each, card::specs::Parts::joint_bits, card::specs::Parts::vec3_at, card::specs::Parts::quat_at))]
impl<'a> JointFields<'a> {
    fn frame(&self, anchor: usize, basis: usize) -> JointFrame
        requires { (anchor + 12 ≤ 123) × (basis + 16 ≤ 123) }
        ensures { result ≡ record { anchor = vec3_at self.now.part.bytes.now anchor; basis = quat_at self.now.part.bytes.now basis } }
    {
        JointFrame {
            anchor: vec3_at(self.part.bytes, anchor),
            basis: quat_at(self.part.bytes, basis),
        }
    }

    // The least and the most at a place of the record.
    fn range(&self, place: usize) -> (f32, f32)
        requires { place + 8 ≤ 123 }
        ensures { result ≡ (float_at self.now.part.bytes.now place, float_at self.now.part.bytes.now (place + 4)) }
    {
        (
            float_at(self.part.bytes, place),
            float_at(self.part.bytes, place + 4),
        )
    }

    fn motor_model(&self) -> MotorModel
        ensures { (ns : List ℕ) → self.now.bits ≡ joint_bits ns → result ≡ model_in ns (joint_floats self.now.part.bytes.now) }
    {
        let first = float_at(self.part.bytes, MOTOR + 12);
        let second = float_at(self.part.bytes, MOTOR + 16);
        match self.bits.motor {
            1 => MotorModel::SpringDamper {
                frequency: first,
                damping_ratio: second,
            },
            2 => MotorModel::AccelerationBased {
                stiffness: first,
                damping: second,
            },
            _ => MotorModel::ForceBased {
                stiffness: first,
                damping: second,
            },
        }
    }

    // A slide's motor has a function of its own: avian's two structs name their caps, and one for both would be no shorter.
    fn angular_motor(&self) -> AngularMotor
        ensures { (ns : List ℕ) → self.now.bits ≡ joint_bits ns → result ≡ angular_motor_in ns (joint_floats self.now.part.bytes.now) }
    {
        AngularMotor {
            enabled: self.bits.motor != 0,
            target_velocity: float_at(self.part.bytes, MOTOR),
            target_position: float_at(self.part.bytes, MOTOR + 4),
            max_torque: float_at(self.part.bytes, MOTOR + 8),
            motor_model: self.motor_model(),
        }
    }

    fn linear_motor(&self) -> LinearMotor
        ensures { (ns : List ℕ) → self.now.bits ≡ joint_bits ns → result ≡ linear_motor_in ns (joint_floats self.now.part.bytes.now) }
    {
        LinearMotor {
            enabled: self.bits.motor != 0,
            target_velocity: float_at(self.part.bytes, MOTOR),
            target_position: float_at(self.part.bytes, MOTOR + 4),
            max_force: float_at(self.part.bytes, MOTOR + 8),
            motor_model: self.motor_model(),
        }
    }

    fn fixed(&self) -> FixedJoint
        ensures { result ≡ fixed_in (joint_floats self.now.part.bytes.now) }
    {
        FixedJoint {
            frame1: self.frame(ANCHOR1, BASIS1),
            frame2: self.frame(ANCHOR2, BASIS2),
            point_compliance: float_at(self.part.bytes, COMPLIANCES),
            angle_compliance: float_at(self.part.bytes, COMPLIANCES + 4),
        }
    }

    fn revolute(&self) -> RevoluteJoint
        ensures { (ns : List ℕ) → self.now.bits ≡ joint_bits ns → result ≡ revolute_in ns (joint_floats self.now.part.bytes.now) }
    {
        let limit = self.bits.first.then_some(self.range(LIMIT1));
        RevoluteJoint {
            frame1: self.frame(ANCHOR1, BASIS1),
            frame2: self.frame(ANCHOR2, BASIS2),
            hinge_axis: vec3_at(self.part.bytes, AXIS),
            angle_limit: limit.map(|(min, max)| AngleLimit { min, max }),
            point_compliance: float_at(self.part.bytes, COMPLIANCES),
            align_compliance: float_at(self.part.bytes, COMPLIANCES + 4),
            limit_compliance: float_at(self.part.bytes, COMPLIANCES + 8),
            motor: self.angular_motor(),
        }
    }

    fn prismatic(&self) -> PrismaticJoint
        ensures { (ns : List ℕ) → self.now.bits ≡ joint_bits ns → result ≡ prismatic_in ns (joint_floats self.now.part.bytes.now) }
    {
        let limits = self.bits.first.then_some(self.range(LIMIT1));
        PrismaticJoint {
            frame1: self.frame(ANCHOR1, BASIS1),
            frame2: self.frame(ANCHOR2, BASIS2),
            slider_axis: vec3_at(self.part.bytes, AXIS),
            limits: limits.map(|(min, max)| DistanceLimit { min, max }),
            angle_compliance: float_at(self.part.bytes, COMPLIANCES),
            align_compliance: float_at(self.part.bytes, COMPLIANCES + 4),
            motor: self.linear_motor(),
        }
    }

    fn spherical(&self) -> SphericalJoint
        ensures { (ns : List ℕ) → self.now.bits ≡ joint_bits ns → result ≡ spherical_in ns (joint_floats self.now.part.bytes.now) }
    {
        let swing = self.bits.first.then_some(self.range(LIMIT1));
        let twist = self.bits.second.then_some(self.range(LIMIT2));
        SphericalJoint {
            frame1: self.frame(ANCHOR1, BASIS1),
            frame2: self.frame(ANCHOR2, BASIS2),
            twist_axis: vec3_at(self.part.bytes, AXIS),
            swing_limit: swing.map(|(min, max)| AngleLimit { min, max }),
            twist_limit: twist.map(|(min, max)| AngleLimit { min, max }),
            point_compliance: float_at(self.part.bytes, COMPLIANCES),
            swing_compliance: float_at(self.part.bytes, COMPLIANCES + 4),
            twist_compliance: float_at(self.part.bytes, COMPLIANCES + 8),
        }
    }

    fn distance(&self) -> DistanceJoint
        ensures { result ≡ distance_in (joint_floats self.now.part.bytes.now) }
    {
        let (min, max) = self.range(LIMIT1);
        DistanceJoint {
            anchor1: vec3_at(self.part.bytes, ANCHOR1),
            anchor2: vec3_at(self.part.bytes, ANCHOR2),
            limits: DistanceLimit { min, max },
            compliance: float_at(self.part.bytes, COMPLIANCES),
        }
    }

    // By kind; a kind number above the last is refused.
    fn by_kind(&self) -> Option<Joint>
        ensures { (ns : List ℕ) → self.now.bits ≡ joint_bits ns → result ≡ (if ltb (at 0 ns) 5 then Some (kind_in ns (joint_floats self.now.part.bytes.now)) else None) }
    {
        match self.bits.kind {
            0 => Some(Joint::Fixed(self.fixed())),
            1 => Some(Joint::Revolute(self.revolute())),
            2 => Some(Joint::Prismatic(self.prismatic())),
            3 => Some(Joint::Spherical(self.spherical())),
            4 => Some(Joint::Distance(self.distance())),
            5.. => None,
        }
    }
}

// Zero where the edition has none.
#[tactic(auto, unfolding(card::specs::Card::edition_of, card::specs::Format::numbers_at, card::specs::Parts::float_at, card::specs::Parts::sizes_of))]
fn breaking_load(part: JointRecord, edition: Edition) -> f32
    requires { (sizes_of edition).joint_bytes ≤ length part.bytes.now }
    ensures { result ≡ breaking_load_of (numbers_at (edition_of (edition_number edition)).joint part.entry.bytes.now 0) }
{
    match edition {
        Edition::One | Edition::Two => 0.0,
        Edition::Three => abs(float_at(part.bytes, BREAKING_LOAD)),
    }
}

// Of a record with no kind number above the last.
pub fn load_joint(part: JointRecord, edition: Edition) -> LinkJoint
    requires long { (sizes_of edition).joint_bytes ≤ length part.bytes.now }
    requires kind { at 0 (numbers_at (edition_of (edition_number edition)).joint part.bytes.now 0) < 5 }
    ensures { result ≡ joint_of (numbers_at (edition_of (edition_number edition)).joint part.entry.bytes.now 0) }
{
    let bits = joint_bits(part.bytes, edition);
    LinkJoint {
        body1: bits.body1,
        body2: bits.body2,
        joint: JointFields { part, bits }.by_kind().unwrap(),
        breaking_load: breaking_load(part, edition),
    }
}
