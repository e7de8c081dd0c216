// What a kind of joint has.
ghost use Rattle.std.specs.Prelude.{◌≡◌};
ghost use Rattle.card.specs.Parts.{kind_with, kind_for};

#[derive(Clone, Copy)]
pub struct JointKind {
    pub bases: bool,
    pub axis: bool,
    // Whether its limits are angles.
    pub angles: bool,
    pub compliances: u32,
    // Whether its limit and motor bits fit.
    pub fits: bool,
}

// By place, so that a kind is one line below.
fn kind_with(bases: bool, axis: bool, angles: bool, compliances: u32, fits: bool) -> JointKind
    ensures { result ≡ kind_with bases axis angles compliances fits }
{
    JointKind {
        bases,
        axis,
        angles,
        compliances,
        fits,
    }
}

// Of a joint that has a first limit, a second limit and a motor, or has not.
#[tactic(auto, unfolding(crate::specs::Parts::kind_for, crate::specs::Card::kind_at))]
pub fn kind_of(kind: u32, first: bool, second: bool, motor: bool) -> JointKind
    ensures { result ≡ kind_for kind first second motor }
{
    match kind {
        // fixed
        0 => kind_with(true, false, false, 2, !first & !second & !motor),
        // hinge
        1 => kind_with(true, true, true, 3, !second),
        // slide
        2 => kind_with(true, true, false, 2, !second),
        // ball
        3 => kind_with(true, true, true, 3, !motor),
        // tether
        4 => kind_with(false, false, false, 1, first & !second & !motor),
        5.. => kind_with(false, false, false, 0, false),
    }
}
