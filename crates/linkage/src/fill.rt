// A card that runs: ticks whose lines fill a buffer, so that one write takes many.
ghost use Rattle.std.specs.Prelude.{◌≡◌, ◌++◌, ◌+◌, ◌-◌, ◌*◌, ◌≤◌, ◌<◌, length};
ghost use Rattle.arrayvec.specs.ArrayVec.{array_vec_len, Extends};
ghost use Rattle.card.specs.Answer.{number_of};
ghost use Rattle.state.specs.State.{body_numbers, answered};
ghost use Rattle.tick.specs.Run.{tick_of};
ghost use Rattle.linkage.specs.Lines.{lines_of, output_of};

use crate::lines::{Lines, put_line, put_refusal};
use card::refusal::Refusal;
use state::places::BODY_NUMBERS;
use std::io;
use tick::run::tick;

// No tick begins in a buffer that has so many bytes. A tick's lines are at most 255 of 73 bytes, so that all of them fit.
const FULL: usize = 40000;

// A card that runs, and the state that it is in.
#[derive(Drop)]
pub struct Table<'c, 's> {
    pub card: &'c [u8],
    pub state: &'s mut [f32],
    pub bodies: usize,
    pub ghost sized: { (bodies ≤ 255) × (body_numbers * bodies ≤ length state.now) },
}

impl<'c, 's> Table<'c, 's> {
    // A loop that writes through `state` itself knows no more of it than its length.
    fn tick(&mut self) -> Result<(), Refusal>
        ensures value { answered (number_of result) self.new.state.now ≡ tick_of self.old.card.now self.old.state.now }
        ensures kept { (self.new.card ≡ self.old.card) × (self.new.bodies ≡ self.old.bodies) }
    {
        tick(self.card, self.state)
    }

    // The lines of a tick, one for each body. By place: a line has a body's first seven numbers, and by chunks its number and place would be told apart as well.
    #[tactic(auto, using(crate::proofs::Pieces::no_lines, crate::proofs::Pieces::more_lines))]
    fn put_lines(&self, tick: u16, out: &mut Lines)
        requires { array_vec_len out.old + 73 * self.now.bodies ≤ 65536 }
        ensures bytes { Extends out.old (lines_of tick self.now.bodies self.now.state.now) out.new }
        ensures len { array_vec_len out.new ≤ array_vec_len out.old + 73 * self.now.bodies }
    {
        for i in 0..self.bodies {
            let pose = BODY_NUMBERS * i;
            put_line(out, tick, i as u64, &self.state[pose..pose + 7]);
        }
    }

    // How many ticks are done: all of them, where one was refused. What is still to be written at the start is what the buffer has at the end, and what is
    // still to be written then.
    pub fn fill(&mut self, from: u16, ticks: u16, out: &mut Lines) -> u16
        requires { from < ticks }
        ensures state_value { output_of self.old.card.now self.old.bodies from (ticks - from) self.old.state.now ≡ out.new.items ++ output_of self.new.card.now self.new.bodies result (ticks - result) self.new.state.now }
        ensures kept { (self.new.card ≡ self.old.card) × (self.new.bodies ≡ self.old.bodies) }
        ensures done_bound { (from < result) × (result ≤ ticks) }
    {
        out.clear();
        for done in from..ticks {
            if out.len() >= FULL {
                return done;
            }
            if let Err(refusal) = self.tick() {
                put_refusal(out, refusal);
                return ticks;
            }
            self.put_lines(done + 1, out);
        }
        ticks
    }

    // Ticks up to the first that is refused. What can't be written ends the program.
    pub fn run(&mut self, rt: &impl Print, ticks: u16) -> io::Result<()> {
        let mut out = Lines::new();
        let mut done = 0;
        while done < ticks {
            done = self.fill(done, ticks, &mut out);
            rt.write_all(out.as_slice())?;
        }
        Ok(())
    }
}
