// The linkage table's program: a tick count and a card from standard input, the bodies' poses after each tick to standard output.
#![tactic(auto)]

mod fill;
mod lines;

ghost use Rattle.std.specs.Prelude.{◌≡◌, ◌*◌, ◌≤◌, IfOk};
ghost use Rattle.state.specs.State.{body_numbers};
ghost use Rattle.linkage.specs.Lines.{ticks_of};

use crate::fill::Table;
use card::refusal::Refusal;
use input::read_full;
use state::places::LARGEST;
use state::sizes::{CardSizes, sizes};
use state::start::start;
use std::io;

// Leaves the start state in so many of the room's first numbers.
#[tactic(auto, using(state::proofs::Few::few))]
fn started(card: &[u8], room: &mut [f32; LARGEST]) -> Result<CardSizes, Refusal>
    ensures { IfOk result (λ s. (s.bodies ≤ 255) × (body_numbers * s.bodies ≤ s.state) × (s.state ≤ 6630)) }
{
    let sizes = sizes(card)?;
    start(card, &mut room[..sizes.state])?;
    Ok(sizes)
}

fn run_card(rt: &impl Print, card: &[u8], ticks: u16) -> io::Result<()> {
    let mut room = [0.0; LARGEST];
    match started(card, &mut room) {
        Ok(sizes) => {
            let mut table = Table {
                card,
                state: &mut room[..sizes.state],
                bodies: sizes.bodies,
            };
            table.run(rt, ticks)
        }
        Err(refusal) => println!(rt; "{refusal}"),
    }
}

fn ticks_of(high: u8, low: u8) -> u16
    ensures { result ≡ ticks_of high low }
{
    u16::from_be_bytes([high, low])
}

// Two bytes for the count, and the card.
fn run_input(rt: &impl Print, input: &[u8]) -> io::Result<()> {
    let Some((count, card)) = input.split_first_chunk::<2>() else {
        return println!(rt; "{}", Refusal::ShortCard);
    };
    run_card(rt, card, ticks_of(count[0], count[1]))
}

fn main(rt: HostRuntime) -> io::Result<()> {
    // More than any card has: what is left unread could only be refused for its length.
    let mut input = [0; 65536];
    let n = read_full(&mut rt.reader(), &mut input)?;
    run_input(&rt, &input[..n])
}
