// The angle of (re, im) in place of the Rust's `simd_atan2` and `angle()`: document 01's integer
// recipe, in units of 2^-30 radian, and near zero the tangent itself (request R-7).
ghost use Rattle.std.specs.Prelude.{◌≡◌, ◌^◌, ◌<◌, ◌≤◌, false, T, pos};
ghost use Rattle.std.specs.Float.{fin, binary32};
ghost use Rattle.std.specs.Float.Ieee.{round, le};
ghost use Rattle.floats.specs.Sign.{sign_bit};
ghost use Rattle.floats.specs.Scalar.{is_finite};
ghost use Rattle.floats.specs.Angle.{eighth_turn, series_sum, series_sum_up_to, arc, folded, ratio, tangent_units, tangent_of, near_zero, signed, angle_units, angle_of};

use crate::{scalar, sign};

// 1 in units.
const UNIT: u64 = 1073741824;

const TERMS: u64 = 15;

// An eighth, a quarter and a half of a turn.
const EIGHTH_TURN: u64 = 843314857;

const QUARTER_TURN: u64 = 1686629713;

const HALF_TURN: u64 = 3373259426;

// 2^-12: below it an angle is its tangent.
const NEAR_ZERO: f32 = 0.000244140625;

// A sum of the series, and how many terms were added.
#[derive(Clone, Copy)]
pub struct SeriesSum {
    pub sum: u64,
    pub terms: u64,
}

// Document 01's S(w), up to the first power that is zero (request R-5).
fn series(w: u64) -> SeriesSum
    requires { w ≤ 2 ^ 30 }
    ensures { result ≡ series_sum w }
{
    let u = w * w / UNIT;
    let mut p = w;
    let mut sum: u64 = 0;
    for k in 0..TERMS {
        if p == 0 {
            return SeriesSum { sum, terms: k };
        }
        let term = p / (2 * k + 1);
        if k % 2 == 0 {
            sum += term;
        } else {
            sum -= term;
        }
        p = p * u / UNIT;
    }
    SeriesSum { sum, terms: TERMS }
}

// The same for any w: there is no sum above 1.
pub fn series_sum(w: u64) -> SeriesSum
    ensures { result ≡ series_sum_up_to w }
{
    if w > UNIT {
        SeriesSum { sum: 0, terms: 0 }
    } else {
        series(w)
    }
}

// The angle whose tangent is t, both in units.
fn arc(t: u64) -> u64
    requires { t ≤ 2 ^ 30 }
    ensures { result ≡ arc t }
{
    if t < UNIT / 2 {
        series(t).sum
    } else {
        EIGHTH_TURN - series((UNIT - t) * UNIT / (UNIT + t)).sum
    }
}

// The angle a, taken from a quarter turn where |im| > |re|, then from a half turn where re's sign bit
// is set.
fn fold(steep: bool, obtuse: bool, a: u64) -> u64
    requires { a ≤ eighth_turn }
    ensures { result ≡ folded steep obtuse a }
{
    let b = if steep { QUARTER_TURN - a } else { a };
    if obtuse { HALF_TURN - b } else { b }
}

// The smaller of two magnitudes over the larger.
fn ratio(a: f32, b: f32) -> f32
    ensures { result ≡ ratio a b }
{
    if a == 0.0 && b == 0.0 {
        return 0.0;
    }
    scalar::min(a, b) / scalar::max(a, b)
}

// T, for a t from +0 to 1. The product is exact.
fn to_units(t: f32) -> u64
    requires { (sign_bit t ≡ false) × T (le t (fin false 1 (pos 0))) }
    ensures { result ≡ tangent_units t }
{
    std::num::truncating_f32_to_u64(t * 1073741824.0)
}

// t of (re, im).
fn tangent(re: f32, im: f32) -> f32
    ensures { result ≡ tangent_of re im }
{
    ratio(sign::abs(re), sign::abs(im))
}

// A, for finite re and im, from their t.
fn units(re: f32, im: f32, t: f32) -> u64
    requires { T (is_finite re) × T (is_finite im) × (t ≡ tangent_of re im) }
    ensures { result ≡ angle_units re im }
{
    let whole = to_units(t);
    fold(
        sign::abs(im) > sign::abs(re),
        sign::sign_bit(re),
        arc(whole),
    )
}

// Whether the angle is t itself (request R-7).
fn near_zero(re: f32, im: f32, t: f32) -> bool
    requires { t ≡ tangent_of re im }
    ensures { result ≡ near_zero re im }
{
    !sign::sign_bit(re) && sign::abs(im) < sign::abs(re) && t < NEAR_ZERO
}

// A magnitude with a sign.
fn signed(negative: bool, x: f32) -> f32
    ensures { result ≡ signed negative x }
{
    if negative { -x } else { x }
}

// a units to the nearest f32, with a sign. The division by 2^30 is exact: only the conversion
// rounds.
fn from_units(a: u64, negative: bool) -> f32
    requires { a < 2 ^ 32 }
    ensures { result ≡ round binary32 negative a (2 ^ 30) }
{
    let x = std::num::nearest_u32_to_f32(a as u32) / 1073741824.0;
    if negative { -x } else { x }
}

pub fn angle(re: f32, im: f32) -> f32
    ensures { result ≡ angle_of re im }
{
    if scalar::is_finite(re) && scalar::is_finite(im) {
        let t = tangent(re, im);
        if near_zero(re, im, t) {
            return signed(sign::sign_bit(im), t);
        }
        return from_units(units(re, im, t), sign::sign_bit(im));
    }
    0.0 / 0.0
}
