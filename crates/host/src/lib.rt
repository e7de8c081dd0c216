// The table's calls for C and Rust: a slice is a pointer and a count. Each answers the refusal's number, 0 for done.
#![tactic(auto)]

ghost use Rattle.std.specs.Prelude.{◌≡◌, ◌<◌};
ghost use Rattle.std.specs.Result.{result_unwrap_or};
ghost use Rattle.card.specs.Answer.{number_of};
ghost use Rattle.card.specs.Checks.{check_of};
ghost use Rattle.state.specs.State.{answered, start_of, sizes_of};
ghost use Rattle.convert.specs.Convert.{conversion, convert_of};
ghost use Rattle.tick.specs.Run.{tick_of, run_of};

use card::checks::check;
use card::refusal::{Refusal, number_of};
use convert::convert::{to_edition_1, to_edition_2};
use state::sizes::sizes;
use state::start::start;
use tick::run::{run, tick};

#[unsafe(no_mangle)]
pub extern "C" fn linkage_check(card: &[u8]) -> u32
    ensures { result ≡ check_of card.now }
{
    number_of(check(card)) as u32
}

// How many bodies and joints a card has, and how many numbers its state; zeros where it is refused.
#[unsafe(no_mangle)]
#[tactic(auto, using(state::proofs::Few::few))]
pub extern "C" fn linkage_sizes(
    card: &[u8],
    bodies: &mut u32,
    joints: &mut u32,
    numbers: &mut u32,
) -> u32
    ensures { record { number = result; bodies = bodies.new; joints = joints.new; state = numbers.new } ≡ sizes_of card.now }
{
    match sizes(card) {
        Ok(s) => {
            *bodies = s.bodies as u32;
            *joints = s.joints as u32;
            *numbers = s.state as u32;
            0
        }
        Err(refusal) => {
            *bodies = 0;
            *joints = 0;
            *numbers = 0;
            refusal.number() as u32
        }
    }
}

#[unsafe(no_mangle)]
pub extern "C" fn linkage_start(card: &[u8], state: &mut [f32]) -> u32
    ensures { answered result state.new ≡ start_of card.now state.old }
{
    number_of(start(card, state)) as u32
}

#[unsafe(no_mangle)]
pub extern "C" fn linkage_tick(card: &[u8], state: &mut [f32]) -> u32
    ensures { answered result state.new ≡ tick_of card.now state.old }
{
    number_of(tick(card, state)) as u32
}

// `done` is how many ticks were made: all, or those before the refused one, of which then none is in the state.
#[unsafe(no_mangle)]
pub extern "C" fn linkage_run(card: &[u8], state: &mut [f32], ticks: u32, done: &mut u32) -> u32
    ensures { record { number = result; ticks = done.new; state = state.new } ≡ run_of card.now state.old ticks }
{
    let ran = run(card, state, ticks);
    *done = ran.ticks;
    number_of(ran.answer) as u32
}

// The refusal's number, or 0 and the length, which is 0 for a refusal.
fn length_or_refusal(converted: Result<usize, Refusal>, length: &mut u32) -> u32
    requires { result_unwrap_or converted 0 < 4294967296 }
    ensures { (result ≡ number_of converted) × (length.new ≡ result_unwrap_or converted 0) }
{
    match converted {
        Ok(bytes) => {
            *length = bytes as u32;
            0
        }
        Err(refusal) => {
            *length = 0;
            refusal.number() as u32
        }
    }
}

// The card in the other edition, and how many bytes it has there; none are written, and their number is 0, where it is refused.
#[unsafe(no_mangle)]
pub extern "C" fn linkage_to_edition_2(card: &[u8], out: &mut [u8], length: &mut u32) -> u32
    ensures { conversion result length.new out.new ≡ convert_of 1 2 card.now out.old }
{
    length_or_refusal(to_edition_2(card, out), length)
}

#[unsafe(no_mangle)]
pub extern "C" fn linkage_to_edition_1(card: &[u8], out: &mut [u8], length: &mut u32) -> u32
    ensures { conversion result length.new out.new ≡ convert_of 2 1 card.now out.old }
{
    length_or_refusal(to_edition_1(card, out), length)
}
