// The archive of comparison for the comparison with the Rust: each export calls the function of comparison that has its name, and states its clauses again.
// A crate is a library or a static library, not both. A slice is passed as its pointer, then its length.
#![tactic(auto)]

ghost use Rattle.std.specs.Prelude.{◌≡◌};
ghost use Rattle.comparison.specs.Exports.{side_number, vector_products, vector_sums, rotation_products, rotation_columns, pose_product};
ghost use Rattle.floats.specs.Utils.{inv_of, simd_inv_of, smallest_abs_diff_between_angles_of};
ghost use Rattle.floats.specs.Sign.{signum_of};
ghost use Rattle.floats.specs.Scalar.{max_of, min_of, clamp_of, side_of, is_finite};
ghost use Rattle.floats.specs.Sqrt.{sqrt_of};
ghost use Rattle.floats.specs.Angle.{series_sum_up_to, angle_of};

pub mod joint;
pub mod sin_cos;

#[unsafe(no_mangle)]
pub extern "C" fn katydidzinc_inv(val: f32) -> f32
    ensures { result ≡ inv_of val }
{
    comparison::katydidzinc_inv(val)
}

#[unsafe(no_mangle)]
pub extern "C" fn katydidzinc_simd_inv(val: f32) -> f32
    ensures { result ≡ simd_inv_of val }
{
    comparison::katydidzinc_simd_inv(val)
}

#[unsafe(no_mangle)]
pub extern "C" fn katydidzinc_smallest_abs_diff_between_angles(a: f32, b: f32) -> f32
    ensures { result ≡ smallest_abs_diff_between_angles_of a b }
{
    comparison::katydidzinc_smallest_abs_diff_between_angles(a, b)
}

#[unsafe(no_mangle)]
pub extern "C" fn katydidzinc_signum(x: f32) -> f32
    ensures { result ≡ signum_of x }
{
    comparison::katydidzinc_signum(x)
}

#[unsafe(no_mangle)]
pub extern "C" fn katydidzinc_max(a: f32, b: f32) -> f32
    ensures { result ≡ max_of a b }
{
    comparison::katydidzinc_max(a, b)
}

#[unsafe(no_mangle)]
pub extern "C" fn katydidzinc_min(a: f32, b: f32) -> f32
    ensures { result ≡ min_of a b }
{
    comparison::katydidzinc_min(a, b)
}

#[unsafe(no_mangle)]
pub extern "C" fn katydidzinc_clamp(x: f32, low: f32, high: f32) -> f32
    ensures { result ≡ clamp_of x low high }
{
    comparison::katydidzinc_clamp(x, low, high)
}

// Which bound the clamp met: inside is 0, low 1 and high 2.
#[unsafe(no_mangle)]
pub extern "C" fn katydidzinc_clamp_side(x: f32, low: f32, high: f32) -> u32
    ensures { result ≡ side_number (side_of x low high) }
{
    comparison::katydidzinc_clamp_side(x, low, high)
}

#[unsafe(no_mangle)]
pub extern "C" fn katydidzinc_is_finite(x: f32) -> bool
    ensures { result ≡ is_finite x }
{
    comparison::katydidzinc_is_finite(x)
}

#[unsafe(no_mangle)]
pub extern "C" fn katydidzinc_sqrt(x: f32) -> f32
    ensures { result ≡ sqrt_of x }
{
    comparison::katydidzinc_sqrt(x)
}

#[unsafe(no_mangle)]
pub extern "C" fn katydidzinc_angle(re: f32, im: f32) -> f32
    ensures { result ≡ angle_of re im }
{
    comparison::katydidzinc_angle(re, im)
}

// S(w) of the angle's recipe, with w in units of 2^-30; 0 for a w above 2^30.
#[unsafe(no_mangle)]
pub extern "C" fn katydidzinc_series(w: u64) -> u64
    ensures { result ≡ (series_sum_up_to w).sum }
{
    comparison::katydidzinc_series(w)
}

// How many terms it added.
#[unsafe(no_mangle)]
pub extern "C" fn katydidzinc_series_terms(w: u64) -> u64
    ensures { result ≡ (series_sum_up_to w).terms }
{
    comparison::katydidzinc_series_terms(w)
}

#[unsafe(no_mangle)]
pub extern "C" fn katydidzinc_vector_products(x: &[f32], out: &mut [f32])
    ensures { out.new ≡ vector_products x.now out.old }
{
    comparison::katydidzinc_vector_products(x, out);
}

#[unsafe(no_mangle)]
pub extern "C" fn katydidzinc_vector_sums(x: &[f32], out: &mut [f32])
    ensures { out.new ≡ vector_sums x.now out.old }
{
    comparison::katydidzinc_vector_sums(x, out);
}

#[unsafe(no_mangle)]
pub extern "C" fn katydidzinc_rotation_products(x: &[f32], out: &mut [f32])
    ensures { out.new ≡ rotation_products x.now out.old }
{
    comparison::katydidzinc_rotation_products(x, out);
}

#[unsafe(no_mangle)]
pub extern "C" fn katydidzinc_rotation_columns(x: &[f32], out: &mut [f32])
    ensures { out.new ≡ rotation_columns x.now out.old }
{
    comparison::katydidzinc_rotation_columns(x, out);
}

#[unsafe(no_mangle)]
pub extern "C" fn katydidzinc_pose_product(x: &[f32], out: &mut [f32])
    ensures { out.new ≡ pose_product x.now out.old }
{
    comparison::katydidzinc_pose_product(x, out);
}
