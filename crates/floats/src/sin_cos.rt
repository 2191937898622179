// The rotation of a typed angle, in place of the Rust's `sin_cos` and `rotation_from_angle`: document 02's integer recipe over the
// table of sines, in units of 2^-30 (R-4).
ghost use Rattle.std.specs.Prelude.{◌≡◌, ◌*◌, ◌/◌, ◌%◌, ◌^◌, ◌<◌, ◌≤◌};
ghost use Rattle.floats.specs.Angle.{quarter_turn};
ghost use Rattle.floats.specs.Sines.{sines};
ghost use Rattle.floats.specs.SinCos.{turn, line_of, sine_at, nearest_of, quarter_pair, place_pair, rotation_from_angle_of, angle_too_large};

use crate::bits::{Parts, parts_of};
use crate::rotation_ops::Rotation;
use crate::sign;
use crate::sines::sines;

// A quarter of a turn, and a turn.
const QUARTER_TURN: u64 = 1686629713;

const TURN: u64 = 6746518852;

// The parts of a quarter in the table.
const PARTS: u64 = 4096;

// The largest size of a typed angle.
pub const LARGEST_ANGLE: f32 = 1024.0;

// Whether a typed angle is above 1024 in size. Of a NaN: false.
pub fn angle_too_large(x: f32) -> bool
    ensures { result ≡ angle_too_large x }
{
    sign::abs(x) > LARGEST_ANGLE
}

// The straight line from one entry to the next, rounded down: rest / QUARTER_TURN is the way along it.
fn line(from: u32, to: u32, rest: u64) -> u32
    requires { (from ≤ to) × (rest < quarter_turn) }
    ensures { result ≡ line_of from to rest }
{
    from + ((to - from) as u64 * rest / QUARTER_TURN) as u32
}

// The sine at place p of a quarter.
fn sine_at(table: &[u32; 4097], p: u64) -> u32
    requires { (table.now ≡ sines) × (p ≤ quarter_turn) }
    ensures { result ≡ sine_at p }
{
    let k = PARTS * p / QUARTER_TURN;
    let i = k as usize;
    if k == PARTS {
        return table[i];
    }
    line(table[i], table[i + 1], PARTS * p % QUARTER_TURN)
}

// n units to the nearest f32. The division by 2^30 is exact: only the conversion rounds.
fn nearest(negative: bool, n: u32) -> f32
    ensures { result ≡ nearest_of negative n }
{
    let x = std::num::nearest_u32_to_f32(n) / 1073741824.0;
    if negative && n != 0 { -x } else { x }
}

// The pair (cosine, sine) in quarter q, from those at its place.
fn quarter_pair(negative: bool, q: u64, c: u32, s: u32) -> Rotation
    ensures { result ≡ quarter_pair negative q c s }
{
    match q {
        0 => Rotation {
            re: nearest(false, c),
            im: nearest(negative, s),
        },
        1 => Rotation {
            re: nearest(true, s),
            im: nearest(negative, c),
        },
        2 => Rotation {
            re: nearest(true, c),
            im: nearest(!negative, s),
        },
        _ => Rotation {
            re: nearest(false, s),
            im: nearest(!negative, c),
        },
    }
}

// The pair of an angle of w units within its turn.
fn place_pair(negative: bool, w: u64) -> Rotation
    ensures { result ≡ place_pair negative w }
{
    let p = w % QUARTER_TURN;
    let table = sines();
    let c = sine_at(&table, QUARTER_TURN - p);
    let s = sine_at(&table, p);
    quarter_pair(negative, w / QUARTER_TURN, c, s)
}

// d · 2^j units, whole turns off.
fn doubled(d: u32, j: u32) -> u64
    requires { d < 2 ^ 24 }
    ensures { result ≡ d * 2 ^ j % turn }
{
    let mut w = d as u64;
    for _ in 0..j {
        w = w * 2 % TURN;
    }
    w
}

// The size of d · 2^k times 2^-149 in units of 2^-30, rounded down, whole turns off.
fn within_turn(d: u32, k: u32) -> u64
    requires { d < 2 ^ 24 }
    ensures { result ≡ d * 2 ^ k / 2 ^ 119 % turn }
{
    if k >= 119 {
        return doubled(d, k - 119);
    }
    let s = 119 - k;
    // below one unit
    if s >= 24 {
        return 0;
    }
    d as u64 >> s
}

pub fn rotation_from_angle(angle: f32) -> Rotation
    ensures { result ≡ rotation_from_angle_of angle }
{
    match parts_of(angle) {
        Parts::Nan => Rotation {
            re: 0.0 / 0.0,
            im: 0.0 / 0.0,
        },
        Parts::Infinite(_) => Rotation {
            re: 0.0 / 0.0,
            im: 0.0 / 0.0,
        },
        Parts::Finite(negative, d, k) => place_pair(negative, within_turn(d, k)),
    }
}
