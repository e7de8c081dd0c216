// The lines that the program writes, at the end of a buffer that its caller lends: document 01, 'Examples'. std's `write!` would serve, but its contract leaves
// open that it fails, and here nothing may.
ghost use Rattle.std.specs.Prelude.{◌≡◌, map, ◌+◌, ◌*◌, ◌≤◌, ◌<◌, length};
ghost use Rattle.std.specs.Fmt.{decimal};
ghost use Rattle.arrayvec.specs.ArrayVec.{array_vec_len, Extends};
ghost use Rattle.card.specs.Answer.{refusal_number};
ghost use Rattle.numbers.specs.Lists.{concat};
ghost use Rattle.linkage.specs.Lines.{hex_of, line_of, refusal_of};

use arrayvec::ArrayVec;
use card::refusal::Refusal;
use itoa::Buffer;
use scalar::to_bits;

// The bytes that one write takes at most.
pub type Lines = ArrayVec<u8, 65536>;

fn put(out: &mut Lines, bytes: &[u8])
    requires { array_vec_len out.old + length bytes.now ≤ 65536 }
    ensures bytes { Extends out.old bytes.now out.new }
    ensures len { array_vec_len out.new ≡ array_vec_len out.old + length bytes.now }
{
    out.try_extend_from_slice(bytes).unwrap();
}

fn put_decimal(out: &mut Lines, n: u64)
    requires { array_vec_len out.old + length (decimal n) ≤ 65536 }
    ensures bytes { Extends out.old (decimal n) out.new }
    ensures len { array_vec_len out.new ≡ array_vec_len out.old + length (decimal n) }
{
    let mut buffer = Buffer::new();
    put(out, buffer.format(n).as_bytes());
}

fn put_hex(out: &mut Lines, x: f32)
    requires { array_vec_len out.old + 9 ≤ 65536 }
    ensures bytes { Extends out.old (hex_of x) out.new }
    ensures len { array_vec_len out.new ≡ array_vec_len out.old + 9 }
{
    let mut digits = [0; 8];
    hex::encode_to_slice(to_bits(x).to_be_bytes(), &mut digits).unwrap();
    out.push(b' ');
    put(out, &digits);
}

#[tactic(auto, using(crate::proofs::Pieces::next_number), unfolding(numbers::specs::Lists::concat))]
fn put_numbers(out: &mut Lines, numbers: &[f32])
    requires { array_vec_len out.old + 9 * length numbers.now ≤ 65536 }
    ensures bytes { Extends out.old (concat (map hex_of numbers.now)) out.new }
    ensures len { array_vec_len out.new ≡ array_vec_len out.old + 9 * length numbers.now }
{
    for x in numbers {
        put_hex(out, *x);
    }
}

#[tactic(auto, using(crate::proofs::Pieces::short_tick, crate::proofs::Pieces::short_body), unfolding(crate::specs::Lines::line_of))]
pub fn put_line(out: &mut Lines, tick: u16, body: u64, pose: &[f32])
    requires { (body < 1000) × (length pose.now ≡ 7) × (array_vec_len out.old + 73 ≤ 65536) }
    ensures bytes { Extends out.old (line_of tick body pose.now) out.new }
    ensures len { array_vec_len out.new ≤ array_vec_len out.old + 73 }
{
    put_decimal(out, tick as u64);
    put(out, b" ");
    put_decimal(out, body);
    put_numbers(out, pose);
    put(out, b"\n");
}

#[tactic(auto, using(crate::proofs::Pieces::short_body), unfolding(crate::specs::Lines::refusal_of))]
pub fn put_refusal(out: &mut Lines, refusal: Refusal)
    requires { array_vec_len out.old + 12 ≤ 65536 }
    ensures bytes { Extends out.old (refusal_of (refusal_number refusal)) out.new }
    ensures len { array_vec_len out.new ≤ array_vec_len out.old + 12 }
{
    put(out, b"refused ");
    put_decimal(out, refusal.number() as u64);
    put(out, b"\n");
}
