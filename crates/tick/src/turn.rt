// A linkage's bodies, their inverse inertias turned to the poses of a state.
ghost use Rattle.std.specs.Prelude.{◌≡◌, ◌*◌, ◌≤◌, length};
ghost use Rattle.loader.specs.Parts.{linkage_in};
ghost use Rattle.state.specs.State.{body_numbers};
ghost use Rattle.tick.specs.Tick.{turned_linkage};

use loader::body::LinkBody;
use loader::linkage::Linkage;
use solver_body::BodyState;
use state::places::{BODY_NUMBERS, Numbers};

// From the bodies' own axes. By index, as the steps of a tick.
pub fn turn_bodies(linkage: &Linkage, state: &[f32], turned: &mut [LinkBody])
    requires { (body_numbers * length linkage.now.bodies.now ≤ length state.now) × (length turned.old ≡ length linkage.now.bodies.now) }
    ensures { turned.new ≡ (turned_linkage (linkage_in linkage.now) state.now).bodies }
{
    for i in 0..turned.len() {
        turned[i] = linkage.bodies[i].turned(BodyState::read(state, BODY_NUMBERS * i).rotation);
    }
}
