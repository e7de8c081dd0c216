// Replays the oracle's list of roots: a number's four bytes to a line with the number and its root.
#![tactic(auto)]

use replay::each_record;
use root::sqrt;
use scalar::to_bits;
use std::io;

fn replay(rt: &impl Print, x: f32) -> io::Result<bool> {
    println!(rt; "{:08x} {:08x}", to_bits(x), to_bits(sqrt(x)))?;
    Ok(true)
}

fn main(rt: HostRuntime) -> io::Result<()> {
    each_record(&rt, |x| replay(&rt, x))
}
