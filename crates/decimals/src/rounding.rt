// w·10^n and w·10^-n to the nearest f32, ties to even: the steps of `round` in the account of IEEE 754, over whole numbers
// that are as large as they need to be.
ghost use Rattle.std.specs.Prelude.{◌≡◌, false, ◌+◌, ◌-◌, ◌*◌, ◌/◌, ◌^◌, ◌<◌, ◌≤◌};
ghost use Rattle.std.specs.Float.{binary32};
ghost use Rattle.std.specs.Float.Ieee.{of_bits, size};
ghost use Rattle.std.specs.Float.Ieee.Nearest.{closest};
ghost use Rattle.decimals.specs.Limbs.{value};
ghost use Rattle.decimals.specs.Rounding.{StartsBelow, units_rounded, decimal_of};

use crate::big::{at_most, natural, shifted, times, times_ten};

// n / d without its fraction, in halvings of the numbers below `most`
fn quotient(n: [u32; 14], d: [u32; 14], most: u32) -> u32
    requires { (value n < value d * most) × (value d * most < 2 ^ 448) × (most ≤ 2 ^ 30) }
    ensures { result ≡ value n / value d }
{
    let mut low: u32 = 0;
    let mut high = most;
    // a `while`: each turn halves what is between the two
    while low + 1 < high {
        let middle = (low + high) / 2;
        if at_most(times(d, middle), n) {
            low = middle;
        } else {
            high = middle;
        }
    }
    low
}

// n / d to the nearest whole number, and half way between two to the even one, where it is below `most`
pub fn nearest(n: [u32; 14], d: [u32; 14], most: u32) -> u32
    requires { (0 < value d) × (value n < value d * most) × (value d * (most * 2) < 2 ^ 448) × (most ≤ 2 ^ 30) }
    ensures { result ≡ closest (value n) (value d) }
{
    let q = quotient(n, d, most);
    let middle = times(d, 2 * q + 1);
    let twice = times(n, 2);
    if at_most(middle, twice) {
        if at_most(twice, middle) {
            return q + q % 2;
        }
        return q + 1;
    }
    q
}

// The guess, where n / den has so many binary digits beyond 24, and otherwise 0.
fn start(n: [u32; 14], den: [u32; 14], guess: u32) -> u32
    requires { (guess < 400) × (value den * 2 ^ (guess + 25) < 2 ^ 448) }
    ensures { StartsBelow (value n) (value den) guess result }
{
    if at_most(shifted(den, guess + 23), n) {
        return guess;
    }
    0
}

// How many binary digits of n / den an f32 does not keep: those beyond 24.
fn dropped(n: [u32; 14], den: [u32; 14], guess: u32) -> u32
    requires { (0 < value den) × (value n < 2 ^ 400) × (guess < 400) × (value den * 2 ^ (guess + 25) < 2 ^ 448) }
    ensures { result ≡ size (value n / value den) - 24 }
{
    let mut k = start(n, den, guess);
    // a `while`: only the test ends it
    while at_most(shifted(den, k + 24), n) {
        k += 1;
    }
    k
}

// The bits of the f32 nearest to n / den units of 2^-149. The exponent's field is k + 1, and the leading digit adds the 1.
fn pattern(n: [u32; 14], den: [u32; 14], guess: u32) -> u32
    requires { (0 < value den) × (value n < 2 ^ 400) × (guess < 400) × (value den * 2 ^ (guess + 25) < 2 ^ 448) }
    ensures { of_bits binary32 result ≡ units_rounded (value n) (value den) }
{
    let k = dropped(n, den, guess);
    if 253 < k {
        return 0x7f80_0000;
    }
    k * 8388608 + nearest(n, shifted(den, k), 16777216)
}

// About how many binary digits beyond 24 w·10^-n units of 2^-149 have. A guess that is off costs time only.
fn guess_down(w: u64, n: u32) -> u32
    requires { n ≤ 64 }
    ensures { result ≤ 189 }
{
    let digits = 64 - u64::leading_zeros(w);
    let off = n * 3322 / 1000 + 1;
    if off < digits + 125 {
        return digits + 125 - off;
    }
    0
}

// The same of w·10^n.
fn guess_up(w: u64, n: u32) -> u32
    requires { n ≤ 38 }
    ensures { result ≤ 320 }
{
    64 - u64::leading_zeros(w) + 125 + n * 3321 / 1000
}

// The bits of w·10^-n.
pub fn scaled_down(w: u64, n: u32) -> u32
    requires { n ≤ 64 }
    ensures { of_bits binary32 result ≡ decimal_of false w 0 n }
{
    let guess = guess_down(w, n);
    pattern(shifted(natural(w), 149), times_ten(natural(1), n), guess)
}

// The bits of w·10^n.
pub fn scaled_up(w: u64, n: u32) -> u32
    requires { n ≤ 38 }
    ensures { of_bits binary32 result ≡ decimal_of false w n 0 }
{
    let guess = guess_up(w, n);
    pattern(shifted(times_ten(natural(w), n), 149), natural(1), guess)
}
