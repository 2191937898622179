// The leaves and the rows of one joint, for the comparison with the Rust; a slice is passed as its pointer,
// then its length. The functions on slices read 13 numbers, a vector v (x, y), a vector w, a number
// s, rotations a and b (re, im), vectors p and q, and write four or six; where a slice is shorter,
// nothing is written. (a, p) and (b, q) are poses.
#![tactic(auto)]

ghost use Rattle.std.specs.Prelude.{◌≡◌, ◌+◌, ◌<◌, length};
ghost use Rattle.comparison.specs.Exports.{side_number, vector_at, rotation_at, put_two, put_vector, put_rotation, vector_products, vector_sums, rotation_products, rotation_columns, pose_product};
ghost use Rattle.floats.specs.Utils.{inv_of, simd_inv_of, smallest_abs_diff_between_angles_of};
ghost use Rattle.floats.specs.Sign.{signum_of};
ghost use Rattle.floats.specs.Scalar.{max_of, min_of, clamp_of, side_of, is_finite};
ghost use Rattle.floats.specs.Sqrt.{sqrt_of};
ghost use Rattle.floats.specs.Angle.{series_sum_up_to, angle_of};

use floats::angle::{angle, series_sum};
use floats::angular_inertia_ops::transform_vector;
use floats::pose::Pose;
use floats::rotation_ops::Rotation;
use floats::scalar::{Side, clamp, is_finite, max, min};
use floats::sign::signum;
use floats::sqrt::sqrt;
use floats::utils::{inv, simd_inv, smallest_abs_diff_between_angles};
use floats::vector::Vector;

pub mod joint;
pub mod sin_cos;

#[unsafe(no_mangle)]
pub extern "C" fn katydidzinc_inv(val: f32) -> f32
    ensures { result ≡ inv_of val }
{
    inv(val)
}

#[unsafe(no_mangle)]
pub extern "C" fn katydidzinc_simd_inv(val: f32) -> f32
    ensures { result ≡ simd_inv_of val }
{
    simd_inv(val)
}

#[unsafe(no_mangle)]
pub extern "C" fn katydidzinc_smallest_abs_diff_between_angles(a: f32, b: f32) -> f32
    ensures { result ≡ smallest_abs_diff_between_angles_of a b }
{
    smallest_abs_diff_between_angles(a, b)
}

#[unsafe(no_mangle)]
pub extern "C" fn katydidzinc_signum(x: f32) -> f32
    ensures { result ≡ signum_of x }
{
    signum(x)
}

#[unsafe(no_mangle)]
pub extern "C" fn katydidzinc_max(a: f32, b: f32) -> f32
    ensures { result ≡ max_of a b }
{
    max(a, b)
}

#[unsafe(no_mangle)]
pub extern "C" fn katydidzinc_min(a: f32, b: f32) -> f32
    ensures { result ≡ min_of a b }
{
    min(a, b)
}

#[unsafe(no_mangle)]
pub extern "C" fn katydidzinc_clamp(x: f32, low: f32, high: f32) -> f32
    ensures { result ≡ clamp_of x low high }
{
    let clamped = clamp(x, low, high);
    clamped.value
}

pub fn side_number(side: Side) -> u32
    ensures { result ≡ side_number side }
{
    match side {
        Side::Inside => 0,
        Side::Low => 1,
        Side::High => 2,
    }
}

// Which bound the clamp met: inside is 0, low 1 and high 2.
#[unsafe(no_mangle)]
pub extern "C" fn katydidzinc_clamp_side(x: f32, low: f32, high: f32) -> u32
    ensures { result ≡ side_number (side_of x low high) }
{
    let clamped = clamp(x, low, high);
    let side = clamped.side;
    side_number(side)
}

#[unsafe(no_mangle)]
pub extern "C" fn katydidzinc_is_finite(x: f32) -> bool
    ensures { result ≡ is_finite x }
{
    is_finite(x)
}

#[unsafe(no_mangle)]
pub extern "C" fn katydidzinc_sqrt(x: f32) -> f32
    ensures { result ≡ sqrt_of x }
{
    sqrt(x)
}

#[unsafe(no_mangle)]
pub extern "C" fn katydidzinc_angle(re: f32, im: f32) -> f32
    ensures { result ≡ angle_of re im }
{
    angle(re, im)
}

// S(w) of the angle's recipe, with w in units of 2^-30; 0 for a w above 2^30.
#[unsafe(no_mangle)]
pub extern "C" fn katydidzinc_series(w: u64) -> u64
    ensures { result ≡ (series_sum_up_to w).sum }
{
    let s = series_sum(w);
    s.sum
}

// How many terms it added.
#[unsafe(no_mangle)]
pub extern "C" fn katydidzinc_series_terms(w: u64) -> u64
    ensures { result ≡ (series_sum_up_to w).terms }
{
    let s = series_sum(w);
    s.terms
}

fn vector_at(x: &[f32], at: usize) -> Vector
    requires { at + 1 < length x.now }
    ensures { result ≡ vector_at x.now at }
{
    Vector {
        x: x[at],
        y: x[at + 1],
    }
}

fn rotation_at(x: &[f32], at: usize) -> Rotation
    requires { at + 1 < length x.now }
    ensures { result ≡ rotation_at x.now at }
{
    Rotation {
        re: x[at],
        im: x[at + 1],
    }
}

// Two numbers, stored from `at` on.
fn put_two(out: &mut [f32], at: usize, a: f32, b: f32)
    requires { at + 1 < length out.old }
    ensures { out.new ≡ put_two out.old at a b }
{
    out[at] = a;
    out[at + 1] = b;
}

fn put_vector(out: &mut [f32], at: usize, v: Vector)
    requires { at + 1 < length out.old }
    ensures { out.new ≡ put_vector out.old at v }
{
    put_two(out, at, v.x, v.y);
}

fn put_rotation(out: &mut [f32], at: usize, p: Rotation)
    requires { at + 1 < length out.old }
    ensures { out.new ≡ put_rotation out.old at p }
{
    put_two(out, at, p.re, p.im);
}

#[unsafe(no_mangle)]
pub extern "C" fn katydidzinc_vector_products(x: &[f32], out: &mut [f32])
    ensures { out.new ≡ vector_products x.now out.old }
{
    if x.len() < 13 {
        return;
    }
    if out.len() < 6 {
        return;
    }
    let v = vector_at(x, 0);
    let w = vector_at(x, 2);
    put_two(out, 0, v.gdot(w), v.simd_length());
    put_vector(out, 2, v.gcross_matrix());
    put_vector(out, 4, v.component_mul(w));
}

#[unsafe(no_mangle)]
pub extern "C" fn katydidzinc_vector_sums(x: &[f32], out: &mut [f32])
    ensures { out.new ≡ vector_sums x.now out.old }
{
    if x.len() < 13 {
        return;
    }
    if out.len() < 6 {
        return;
    }
    let v = vector_at(x, 0);
    let w = vector_at(x, 2);
    put_vector(out, 0, v.add(w));
    put_vector(out, 2, v.sub(w));
    put_vector(out, 4, v.mul(x[4]));
}

#[unsafe(no_mangle)]
pub extern "C" fn katydidzinc_rotation_products(x: &[f32], out: &mut [f32])
    ensures { out.new ≡ rotation_products x.now out.old }
{
    if x.len() < 13 {
        return;
    }
    if out.len() < 6 {
        return;
    }
    let a = rotation_at(x, 5);
    let b = rotation_at(x, 7);
    put_rotation(out, 0, a.mul(b));
    put_rotation(out, 2, a.inverse());
    put_vector(out, 4, a.rotate(vector_at(x, 0)));
}

#[unsafe(no_mangle)]
pub extern "C" fn katydidzinc_rotation_columns(x: &[f32], out: &mut [f32])
    ensures { out.new ≡ rotation_columns x.now out.old }
{
    if x.len() < 13 {
        return;
    }
    if out.len() < 6 {
        return;
    }
    let a = rotation_at(x, 5);
    let m = a.to_mat();
    put_vector(out, 0, m.column(0));
    put_vector(out, 2, m.column(1));
    put_two(out, 4, angle(a.re, a.im), transform_vector(x[4], x[0]));
}

#[unsafe(no_mangle)]
pub extern "C" fn katydidzinc_pose_product(x: &[f32], out: &mut [f32])
    ensures { out.new ≡ pose_product x.now out.old }
{
    if x.len() < 13 {
        return;
    }
    if out.len() < 4 {
        return;
    }
    let p = Pose {
        rotation: rotation_at(x, 5),
        translation: vector_at(x, 9),
    };
    let q = Pose {
        rotation: rotation_at(x, 7),
        translation: vector_at(x, 11),
    };
    let r = p.mul(q);
    put_rotation(out, 0, r.rotation);
    put_vector(out, 2, r.translation);
}
