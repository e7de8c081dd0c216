// A body of the card, as the solver reads it.
ghost use Rattle.std.specs.Prelude.{◌≡◌, if◌then◌else◌};
ghost use Rattle.vector.specs.Matrix.{turned_tensor};
ghost use Rattle.card.specs.Format.{numbers_at};
ghost use Rattle.card.specs.Card.{body};
ghost use Rattle.loader.specs.Linkage.{moving_inertia_in, body_of};
ghost use Rattle.loader.specs.Parts.{body_floats_of};

use card::bits::{float_at, vec3_at};
use card::layout::{CENTER_OF_MASS, INV_INERTIA, INV_MASS};
use card::records::{BodyRecord, body_bits};
use solver_body::SolverBodyInertia;
use vector::{Quat, SymmetricTensor, Vec3};

#[derive(Clone, Copy)]
pub struct LinkBody {
    // A flag and no `Option` of the inertia: document 01 gives an anchored body the dummy's.
    pub anchored: bool,
    pub inertia: SolverBodyInertia,
    pub center_of_mass: Vec3,
}

impl LinkBody {
    // What a slice of bodies is made of before it is loaded.
    pub const DUMMY: LinkBody = LinkBody {
        anchored: true,
        inertia: SolverBodyInertia::DUMMY,
        center_of_mass: Vec3::ZERO,
    };

    // With its inverse inertia turned; an anchored body's stays.
    pub fn turned(self, rotation: Quat) -> LinkBody
        ensures { result ≡ record self { inertia = if self.anchored then self.inertia else record self.inertia { inv_angular_inertia = turned_tensor rotation self.inertia.inv_angular_inertia } } }
    {
        if self.anchored {
            return self;
        }
        let tensor = self.inertia.inv_angular_inertia.turned(rotation);
        LinkBody {
            inertia: SolverBodyInertia {
                inv_angular_inertia: tensor,
                ..self.inertia
            },
            ..self
        }
    }
}

#[tactic(auto, unfolding(card::specs::Parts::body_bits, card::specs::Parts::float_at, card::specs::Format::numbers_at))]
fn load_inertia(part: BodyRecord) -> SolverBodyInertia
    ensures { result ≡ moving_inertia_in (numbers_at body part.entry.bytes.now 0) (body_floats_of (numbers_at body part.entry.bytes.now 0)) }
{
    let b = body_bits(part.bytes);
    SolverBodyInertia {
        inv_mass: float_at(part.bytes, INV_MASS),
        inv_angular_inertia: SymmetricTensor {
            xx: float_at(part.bytes, INV_INERTIA),
            xy: float_at(part.bytes, INV_INERTIA + 4),
            xz: float_at(part.bytes, INV_INERTIA + 8),
            yy: float_at(part.bytes, INV_INERTIA + 12),
            yz: float_at(part.bytes, INV_INERTIA + 16),
            zz: float_at(part.bytes, INV_INERTIA + 20),
        },
        translation_x_locked: b.lock_x,
        translation_y_locked: b.lock_y,
        translation_z_locked: b.lock_z,
    }
}

#[tactic(auto, unfolding(crate::specs::Linkage::body_in, card::specs::Parts::body_bits, card::specs::Parts::vec3_at, card::specs::Parts::float_at, card::specs::Format::numbers_at))]
pub fn load_body(part: BodyRecord) -> LinkBody
    ensures { result ≡ body_of (numbers_at body part.entry.bytes.now 0) }
{
    let anchored = body_bits(part.bytes).anchored;
    LinkBody {
        anchored,
        inertia: if anchored {
            SolverBodyInertia::DUMMY
        } else {
            load_inertia(part)
        },
        center_of_mass: vec3_at(part.bytes, CENTER_OF_MASS),
    }
}
