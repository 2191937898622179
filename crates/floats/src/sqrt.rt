// The correctly rounded root by integer work. It stands for the Rust's `sqrt` under the length of
// a vector.
ghost use Rattle.std.specs.Prelude.{◌≡◌, ◌*◌, ◌^◌, ◌<◌, ◌≤◌, false};
ghost use Rattle.std.specs.Float.{binary32};
ghost use Rattle.std.specs.Float.Ieee.{units};
ghost use Rattle.floats.specs.Sqrt.{isqrt, nearest_root, sqrt_of};

use crate::bits::{Parts, parts_of};

// The square root of n without its fraction, in 25 halvings of the numbers below 2^25.
fn isqrt(n: u64) -> u64
    requires { n < 2 ^ 50 }
    ensures { result ≡ isqrt n }
{
    let mut low: u64 = 0;
    let mut high: u64 = 33554432;
    // a `while`: each turn halves what is between the two
    while low + 1 < high {
        let middle = (low + high) / 2;
        if middle * middle <= n {
            low = middle;
        } else {
            high = middle;
        }
    }
    low
}

// q·2^k units of 2^-149, for a q of 24 digits. The exponent's field is k + 1, and the leading digit
// of q adds the 1.
fn assembled(q: u32, k: u32) -> f32
    requires { (2 ^ 23 ≤ q) × (q < 2 ^ 24) × (k ≤ 253) }
    ensures { result ≡ units binary32 false q k }
{
    f32::from_bits(k * 8388608 + q)
}

// The value nearest to √(d·2^f) units, for a d of 24 digits. The root has 24 + k digits before its
// fraction, and k are dropped. Twice the root is taken to 25 digits, and its last digit rounds.
fn rounded_root(d: u32, f: u32) -> f32
    requires { (2 ^ 23 ≤ d) × (d < 2 ^ 24) × (23 ≤ f) × (f ≤ 402) }
    ensures { result ≡ nearest_root (d * 2 ^ f) }
{
    let k = (f - 23) / 2;
    let twice = isqrt((d as u64) << (f - 2 * k + 2));
    assembled(((twice + 1) / 2) as u32, k)
}

// The root of d·2^k units, where d is not 0. d is first brought to 24 digits.
fn positive_root(d: u32, k: u32) -> f32
    requires { (0 < d) × (d < 2 ^ 24) × (k ≤ 253) }
    ensures { result ≡ nearest_root (d * 2 ^ k * 2 ^ 149) }
{
    let shift = u32::leading_zeros(d) - 8;
    rounded_root(d << shift, k + 149 - shift)
}

// The root of x, rounded once. Infinity, NaN and both zeros stay, and a number below zero has a NaN
// for its root.
pub fn sqrt(x: f32) -> f32
    ensures { result ≡ sqrt_of x }
{
    match parts_of(x) {
        Parts::Nan => x,
        Parts::Infinite(negative) => {
            if negative {
                return 0.0 / 0.0;
            }
            x
        }
        Parts::Finite(negative, d, k) => {
            if d == 0 {
                return x;
            }
            if negative {
                return 0.0 / 0.0;
            }
            positive_root(d, k)
        }
    }
}
