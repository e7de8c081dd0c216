// Replays the oracle's list of runs: a tick count and a card's length, two bytes each, and the card, to a line with the number that a run from the start
// state answers, the ticks that it did, and the sum of the state after it.
#![tactic(auto)]

ghost use Rattle.std.specs.Prelude.{◌≤◌};

use card::refusal::number_of;
use input::read_full;
use replay::each_record;
use scalar::to_bits;
use state::places::LARGEST;
use state::sizes::sizes;
use state::start::start;
use std::io;
use tick::run::run;

// A polynomial in the numbers' bits, modulo the largest prime below 2^32: where one number is another, so is the sum.
fn sum(state: &[f32]) -> u64 {
    state.iter().fold(0, |sum, x| {
        ((sum as u128 * 16777619 + to_bits(*x) as u128) % 4294967291) as u64
    })
}

fn replay_run(rt: &impl Print, card: &[u8], state: &mut [f32], ticks: u32) -> io::Result<()> {
    // A state that is refused stays as it was, and so is refused by the run.
    let _ = start(card, state);
    let ran = run(card, state, ticks);
    let number = number_of(ran.answer);
    println!(rt; "{number} {} {:08x}", ran.ticks, sum(state))
}

// The state of a card that is refused has no number.
#[tactic(auto, using(state::proofs::Few::few))]
fn state_numbers(card: &[u8]) -> usize
    ensures { result ≤ 6630 }
{
    match sizes(card) {
        Ok(sizes) => sizes.state,
        Err(_) => 0,
    }
}

fn replay_card(rt: &impl Print, card: &[u8], ticks: u32) -> io::Result<()> {
    let mut room = [0.0; LARGEST];
    let numbers = state_numbers(card);
    replay_run(rt, card, &mut room[..numbers], ticks)
}

// With a card of so many bytes, where the input has them: it is not read again behind its end.
fn replay(rt: &HostRuntime, ticks: u16, length: u16) -> io::Result<bool> {
    let mut room = [0; 65536];
    let card = &mut room[..length as usize];
    if read_full(&mut rt.stdin(), card)? < card.len() {
        return Ok(false);
    }
    replay_card(rt, card, ticks as u32)?;
    Ok(true)
}

fn main(rt: HostRuntime) -> io::Result<()> {
    each_record(&rt, |(ticks, length)| replay(&rt, ticks, length))
}
