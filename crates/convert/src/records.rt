// A card's records read by one edition and written by another. What the editions share keeps its bytes.
ghost use Rattle.std.specs.Prelude.{◌≡◌, map, ◌+◌, ◌*◌, ◌≤◌, length, set};
ghost use Rattle.std.proofs.lemmas.List.Edits.{sets};
ghost use Rattle.numbers.specs.Lists.{concat};
ghost use Rattle.card.specs.Format.{numbers_at, records_at};
ghost use Rattle.card.specs.Card.{edition_of};
ghost use Rattle.card.specs.Parts.{edition_number, sizes_of, card_with};
ghost use Rattle.convert.specs.Convert.{record_bytes, card_bytes, with_edition};
ghost use Rattle.convert.specs.Parts.{SmallHeader, SmallJoint, header_start, joint_start, rows_bytes};

use card::edition::Edition;
use card::layout::{BODY_BYTES, GRAVITY};
use card::records::{HeaderBits, JointBits, header_bits, joint_bits};

// Of both editions that a card is taken from and to.
const JOINT_BYTES: usize = 123;

// The bits before a header's floats. By edition and not by a table of places, which would be no shorter.
fn write_header_bits(h: HeaderBits, edition: Edition, out: &mut [u8])
    requires { SmallHeader h × (8 ≤ length out.old) }
    ensures { out.new ≡ sets out.old 0 (header_start (edition_number edition) h) }
{
    match edition {
        Edition::One => {
            let b = 0x0100_0000
                + h.bodies as u32 * 0x0004_0000
                + h.joints as u32 * 0x1000
                + h.rate * 4
                + h.zero;
            out[..4].copy_from_slice(&b.to_be_bytes());
        }
        Edition::Two | Edition::Three => {
            let b = edition.number() as u64 * 0x0100_0000_0000_0000
                + h.bodies as u64 * 0x0001_0000_0000_0000
                + h.joints as u64 * 0x0100_0000_0000
                + h.rate as u64 * 0x0100_0000
                + h.zero as u64;
            out[..8].copy_from_slice(&b.to_be_bytes());
        }
    }
}

// The bits before a joint's floats, by edition too.
#[tactic(auto, unfolding(crate::specs::Parts::joint_start, crate::specs::Parts::bit_of, crate::specs::Convert::packed, card::specs::Card::edition_of))]
fn joint_bits_in(j: JointBits, edition: Edition) -> u32
    requires { SmallJoint j }
    ensures { result ≡ joint_start (edition_number edition) j }
{
    let first = u32::from(j.first);
    let second = u32::from(j.second);
    match edition {
        Edition::One => j.kind * 0x0020_0000
            + j.body1 as u32 * 0x0001_0000
            + j.body2 as u32 * 0x0800
            + first * 0x0400
            + second * 0x0200
            + j.motor * 0x80
            + j.zero,
        Edition::Two | Edition::Three => j.kind * 0x0020_0000
            + j.body1 as u32 * 0x2000
            + j.body2 as u32 * 0x20
            + first * 0x10
            + second * 8
            + j.motor * 2
            + j.zero,
    }
}

// From which edition a card is read, and in which it is written: editions 1 and 2, whose joints have as many bytes.
#[derive(Clone, Copy)]
pub struct Way {
    pub from: Edition,
    pub to: Edition,
    pub ghost convertible: { (edition_number from ≤ 2) × (edition_number to ≤ 2) },
}

impl Way {
    // The floats at a header's end keep their bytes.
    #[tactic(auto, using(card::proofs::Editions::header_bytes_lem, crate::proofs::Starts::small_header))]
    fn write_header(self, part: &[u8], out: &mut [u8])
        requires { (length part.now ≡ (sizes_of self.from).header_bytes) × (length out.old ≡ (sizes_of self.to).header_bytes) }
        ensures { out.new ≡ record_bytes (edition_of (edition_number self.to)).header (set (numbers_at (edition_of (edition_number self.from)).header part.now 0) 0 (edition_number self.to)) }
    {
        let h = header_bits(part, self.from);
        let read = part.len() - GRAVITY;
        let written = out.len() - GRAVITY;
        out[written..].copy_from_slice(&part[read..]);
        write_header_bits(h, self.to, out);
    }

    #[tactic(auto, using(crate::proofs::Starts::small_joint))]
    fn write_joint(self, part: &[u8], out: &mut [u8])
        requires { (length part.now ≡ 123) × (length out.old ≡ 123) }
        ensures { out.new ≡ record_bytes (edition_of (edition_number self.to)).joint (numbers_at (edition_of (edition_number self.from)).joint part.now 0) }
    {
        let b = joint_bits_in(joint_bits(part, self.from), self.to);
        out.copy_from_slice(part);
        out[..3].copy_from_slice(&b.to_be_bytes()[1..]);
    }

    // Of so many joints, from a place of the card on.
    // By place: after `chunks_exact_mut` a proof knows the slice's length alone (tried: `returns` stays open), and beside a place in `out`, `enumerate` over the card's chunks is no plainer.
    #[tactic(auto, unfolding(card::specs::Format::records_at, numbers::specs::Lists::concat))]
    fn write_joints(self, card: &[u8], at: usize, joints: usize, out: &mut [u8])
        requires { (at + 123 * joints ≤ length card.now) × (length out.old ≡ 123 * joints) }
        ensures { out.new ≡ concat (map (record_bytes (edition_of (edition_number self.to)).joint) (records_at (edition_of (edition_number self.from)).joint card.now (8 * at) joints)) }
    {
        for i in 0..joints {
            let start = JOINT_BYTES * i;
            let end = start + JOINT_BYTES;
            self.write_joint(&card[at + start..at + end], &mut out[start..end]);
        }
    }

    // Of so many bodies, which keep their bytes, from a place of the card on, and so many joints behind them.
    fn write_rows(self, card: &[u8], at: usize, bodies: usize, joints: usize, out: &mut [u8])
        requires { (at + 94 * bodies + 123 * joints ≤ length card.now) × (length out.old ≡ 94 * bodies + 123 * joints) }
        ensures { out.new ≡ rows_bytes (edition_of (edition_number self.from)) (edition_of (edition_number self.to)) card.now (8 * at) bodies joints }
    {
        let size = BODY_BYTES * bodies;
        let end = at + size;
        out[..size].copy_from_slice(&card[at..end]);
        self.write_joints(card, end, joints, &mut out[size..]);
    }

    // A card with so many bodies and joints.
    pub fn write_card(self, card: &[u8], bodies: usize, joints: usize, out: &mut [u8])
        requires { (length card.now ≡ (sizes_of self.from).header_bytes + 94 * bodies + 123 * joints) × (length out.old ≡ (sizes_of self.to).header_bytes + 94 * bodies + 123 * joints) }
        ensures { out.new ≡ card_bytes (edition_of (edition_number self.to)) (with_edition (edition_number self.to) (card_with (edition_of (edition_number self.from)) card.now bodies joints)) }
    {
        let read = self.from.sizes().header_bytes;
        let written = self.to.sizes().header_bytes;
        self.write_header(&card[..read], &mut out[..written]);
        self.write_rows(card, read, bodies, joints, &mut out[written..]);
    }
}
