// The two inverses and the angle difference of the Rust's utils/mod.rs.
ghost use Rattle.std.specs.Prelude.{◌≡◌};
ghost use Rattle.floats.specs.Utils.{inv_of, simd_inv_of, smallest_abs_diff_between_angles_of};

use crate::sign::{abs, signum};

const INV_EPSILON: f32 = 1.0e-20;

const TWO_PI: f32 = 6.283185307179586;

pub fn inv(val: f32) -> f32
    ensures { result ≡ inv_of val }
{
    if -INV_EPSILON <= val && val <= INV_EPSILON {
        0.0
    } else {
        1.0 / val
    }
}

pub fn simd_inv(val: f32) -> f32
    ensures { result ≡ simd_inv_of val }
{
    if val > -INV_EPSILON && val < INV_EPSILON {
        0.0
    } else {
        1.0 / val
    }
}

pub fn smallest_abs_diff_between_angles(a: f32, b: f32) -> f32
    ensures { result ≡ smallest_abs_diff_between_angles_of a b }
{
    let s_err = a - b;
    let s_err_complement = s_err - signum(s_err) * TWO_PI;
    if abs(s_err) < abs(s_err_complement) {
        return s_err;
    }
    s_err_complement
}
