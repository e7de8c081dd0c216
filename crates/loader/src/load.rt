// A card's linkage, loaded into slices of its counts' length.
ghost use Rattle.std.specs.Prelude.{◌≡◌, map, ◌+◌, ◌*◌, ◌≤◌, ◌<◌, length, ℕ};
ghost use Rattle.card.specs.Format.{width_of, numbers_at, records_at};
ghost use Rattle.card.specs.Card.{at, body, edition_of, card_of};
ghost use Rattle.card.specs.Parts.{edition_number, sizes_of};
ghost use Rattle.loader.specs.Linkage.{body_of, joint_of, linkage_of};
ghost use Rattle.loader.specs.Parts.{header_of, linkage_in};

use crate::body::{LinkBody, load_body};
use crate::header::Header;
use crate::joint::{LinkJoint, load_joint};
use crate::linkage::Linkage;
use card::accepted_card::Accepted;
use card::edition::Edition;
use card::layout::BODY_BYTES;
use card::records::{BodyRecord, JointRecord};

// From byte `first` on. Bodies and joints apart: joints are read by an edition, which asks that their kinds fit. They are written by index, since after an adapter of
// `iter_mut` a proof knows nothing of the slice.
fn load_bodies(card: &[u8], first: usize, bodies: &mut [LinkBody])
    requires { first + 94 * length bodies.old ≤ length card.now }
    ensures { bodies.new ≡ map body_of (records_at body card.now (8 * first) (length bodies.old)) }
{
    let parts = card[first..first + BODY_BYTES * bodies.len()].chunks_exact(BODY_BYTES);
    for (i, bytes) in parts.enumerate() {
        bodies[i] = load_body(BodyRecord { bytes });
    }
}

// From byte `first` on. The card and a place, as its checks have them.
#[tactic(auto, using(card::proofs::Editions::joint_bytes_lem))]
fn load_joints(card: &[u8], edition: Edition, first: usize, joints: &mut [LinkJoint])
    requires { (first + (sizes_of edition).joint_bytes * length joints.old ≤ length card.now) × ((j : ℕ) → j < length joints.old → at 0 (numbers_at (edition_of (edition_number edition)).joint card.now (8 * first + j * width_of (edition_of (edition_number edition)).joint)) < 5) }
    ensures { joints.new ≡ map joint_of (records_at (edition_of (edition_number edition)).joint card.now (8 * first) (length joints.old)) }
{
    let size = edition.sizes().joint_bytes;
    let parts = card[first..first + size * joints.len()].chunks_exact(size);
    for (j, bytes) in parts.enumerate() {
        joints[j] = load_joint(JointRecord { bytes }, edition);
    }
}

#[tactic(auto, using(crate::proofs::Accepted::bodies_fit))]
pub fn load<'b, 'j>(
    card: Accepted,
    h: Header,
    bodies: &'b mut [LinkBody],
    joints: &'j mut [LinkJoint],
) -> Linkage<'b, 'j>
    requires { (h ≡ header_of (card_of card.bytes.now)) × (length bodies.old ≡ h.bodies) × (length joints.old ≡ h.joints) }
    ensures linkage { linkage_in result ≡ linkage_of (card_of card.entry.bytes.now) }
    ensures sizes { (length result.bodies.now ≡ h.bodies) × (length result.joints.now ≡ h.joints) }
{
    let edition = Edition::of(card);
    let first = edition.sizes().header_bytes;
    load_bodies(card.bytes, first, bodies);
    load_joints(card.bytes, edition, first + BODY_BYTES * h.bodies, joints);
    Linkage {
        dt: h.dt,
        gravity: h.gravity,
        warm_coefficient: h.warm_coefficient,
        bodies,
        joints,
    }
}
