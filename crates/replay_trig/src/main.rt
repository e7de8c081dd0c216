// Replays the oracle's list of angles: y and x, four bytes each, to a line with y, x, the sine and the cosine of y, atan2(y, x) and the arc sine
// of y.
#![tactic(auto)]

use replay::each_record;
use scalar::to_bits;
use std::io;
use trig::{asin, atan2, sin_cos};

fn replay(rt: &impl Print, y: f32, x: f32) -> io::Result<bool> {
    let pair = sin_cos(y);
    print!(rt; "{:08x} {:08x} ", to_bits(y), to_bits(x))?;
    print!(rt; "{:08x} {:08x} ", to_bits(pair.sin), to_bits(pair.cos))?;
    println!(rt; "{:08x} {:08x}", to_bits(atan2(y, x)), to_bits(asin(y)))?;
    Ok(true)
}

fn main(rt: HostRuntime) -> io::Result<()> {
    each_record(&rt, |(y, x)| replay(&rt, y, x))
}
