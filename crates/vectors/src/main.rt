// Runs the IEEE 754 vectors of standard input, a line each: an operator, two operands and the
// result, as bit patterns in hexadecimal, `+ 3F800000 3F800000 40000000`. The operators are
// + - * / < l (at most) = s (root, whose second operand is 00000000). A comparison's result is
// 00000001 or 00000000, and every NaN is 7FC00000. It prints each line that comes out otherwise,
// and how many there were.
#![tactic(auto)]

use floats::bits::{from_bits, to_bits};
use floats::sqrt::sqrt;
use std::io;
use std::io::Read;

// More lines than this are not read.
const MOST: u64 = 1000000;

fn digit(b: u8) -> u32 {
    match b {
        b'0'..=b'9' => (b - b'0') as u32,
        b'A'..=b'F' => (b - b'A') as u32 + 10,
        _ => 0,
    }
}

fn word(digits: &[u8]) -> u32 {
    digits.iter().fold(0, |word, b| word << 4 | digit(*b))
}

// The result's pattern, or one that no line has where the operator is unknown.
fn answer(op: u8, a: f32, b: f32) -> u32 {
    match op {
        b'+' => to_bits(a + b),
        b'-' => to_bits(a - b),
        b'*' => to_bits(a * b),
        b'/' => to_bits(a / b),
        b'<' => (a < b) as u32,
        b'l' => (a <= b) as u32,
        b'=' => (a == b) as u32,
        b's' => to_bits(sqrt(a)),
        _ => 0x7fff_ffff,
    }
}

// Reads one line and runs it: whether it came out right; none at the end of the lines.
fn turn(rt: HostRuntime) -> io::Result<Option<bool>> {
    let mut line = [0u8; 29];
    if rt.stdin().read_exact(&mut line).is_err() {
        return Ok(None);
    }
    let a = from_bits(word(&line[2..10]));
    let b = from_bits(word(&line[11..19]));
    let right = answer(line[0], a, b) == word(&line[20..28]);
    if !right {
        rt.write_all(&line)?;
    }
    Ok(Some(right))
}

fn main(rt: HostRuntime) -> io::Result<()> {
    let mut lines = 0u64;
    let mut wrong = 0u64;
    for _turn in 0..MOST {
        let Some(right) = turn(rt)? else {
            break;
        };
        lines += 1;
        if !right {
            wrong += 1;
        }
    }
    println!(rt; "{lines} vectors, {wrong} wrong")
}
