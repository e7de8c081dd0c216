// What the programs that replay the oracle's stored answers share: the records of their input, high byte first.
#![tactic(auto)]

use input::read_full;
use std::io;
use std::io::Read;

pub trait Record: Sized {
    // None at the input's end, also where that cuts the record short.
    fn read<R: Read>(from: &mut R) -> io::Result<Option<Self>>;
}

fn read_bytes<R: Read, const N: usize>(from: &mut R) -> io::Result<Option<[u8; N]>> {
    let mut bytes = [0; N];
    let full = read_full(from, &mut bytes)? == N;
    Ok(full.then_some(bytes))
}

impl Record for u16 {
    fn read<R: Read>(from: &mut R) -> io::Result<Option<u16>> {
        Ok(read_bytes(from)?.map(u16::from_be_bytes))
    }
}

impl Record for f32 {
    fn read<R: Read>(from: &mut R) -> io::Result<Option<f32>> {
        let bytes = read_bytes(from)?;
        Ok(bytes.map(|b| scalar::from_bits(u32::from_be_bytes(b))))
    }
}

// One behind the other.
impl<A: Record + Drop, B: Record + Drop> Record for (A, B) {
    fn read<R: Read>(from: &mut R) -> io::Result<Option<(A, B)>> {
        let Some(a) = A::read(from)? else {
            return Ok(None);
        };
        Ok(B::read(from)?.map(|b| (a, b)))
    }
}

// Up to the input's end, or until `replay` answers that it has met the end itself: false.
pub fn each_record<T: Record, F: Fn(T) -> io::Result<bool>>(
    rt: &HostRuntime,
    replay: F,
) -> io::Result<()>
    requires { F.IsAlwaysCallable replay }
{
    // Nothing says that the input ends, so the loop counts its turns, up to a number that no input uses up.
    for _ in 0..u64::MAX {
        let Some(record) = T::read(&mut rt.stdin())? else {
            break;
        };
        if !replay(record)? {
            break;
        }
    }
    Ok(())
}
