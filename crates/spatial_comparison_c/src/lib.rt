// The archive of spatial_comparison for the comparison with the Rust: each export calls the function of spatial_comparison that has its name, and states its clauses
// again. A crate is a library or a static library, not both.
#![tactic(auto)]

ghost use Rattle.std.specs.Prelude.{◌≡◌};
ghost use Rattle.spatial_floats.specs.Vector.{add_of, sub_of, mul_of, gdot_of, component_mul_of};
ghost use Rattle.spatial_floats.specs.Matrix.{matrix_product_of, gcross_matrix_of};
ghost use Rattle.spatial_floats.specs.Rotation.{product_of, inverse_of, dot_of, rotate_of, to_mat_of, diff_conj12_of};
ghost use Rattle.spatial_floats.specs.Pose.{pose_product_of};
ghost use Rattle.spatial_floats.specs.AngularInertia.{transform_vector_of};
ghost use Rattle.spatial_floats.specs.Sign.{sign_of};

use spatial_floats::angular_inertia_ops::SdpMatrix3;
use spatial_floats::matrix::Matrix;
use spatial_floats::pose::Pose;
use spatial_floats::rotation_ops::Rotation;
use spatial_floats::vector::Vector;

pub mod joint;

#[unsafe(no_mangle)]
pub extern "C" fn katydidzinc_space_vector_add(v: Vector, w: Vector) -> Vector
    ensures { result ≡ add_of v w }
{
    spatial_comparison::katydidzinc_space_vector_add(v, w)
}

#[unsafe(no_mangle)]
pub extern "C" fn katydidzinc_space_vector_sub(v: Vector, w: Vector) -> Vector
    ensures { result ≡ sub_of v w }
{
    spatial_comparison::katydidzinc_space_vector_sub(v, w)
}

#[unsafe(no_mangle)]
pub extern "C" fn katydidzinc_space_vector_mul(v: Vector, s: f32) -> Vector
    ensures { result ≡ mul_of v s }
{
    spatial_comparison::katydidzinc_space_vector_mul(v, s)
}

#[unsafe(no_mangle)]
pub extern "C" fn katydidzinc_space_vector_gdot(v: Vector, w: Vector) -> f32
    ensures { result ≡ gdot_of v w }
{
    spatial_comparison::katydidzinc_space_vector_gdot(v, w)
}

#[unsafe(no_mangle)]
pub extern "C" fn katydidzinc_space_vector_component_mul(v: Vector, w: Vector) -> Vector
    ensures { result ≡ component_mul_of v w }
{
    spatial_comparison::katydidzinc_space_vector_component_mul(v, w)
}

#[unsafe(no_mangle)]
pub extern "C" fn katydidzinc_space_gcross_matrix(v: Vector) -> Matrix
    ensures { result ≡ gcross_matrix_of v }
{
    spatial_comparison::katydidzinc_space_gcross_matrix(v)
}

#[unsafe(no_mangle)]
pub extern "C" fn katydidzinc_space_transform_vector(ii: SdpMatrix3, v: Vector) -> Vector
    ensures { result ≡ transform_vector_of ii v }
{
    spatial_comparison::katydidzinc_space_transform_vector(ii, v)
}

#[unsafe(no_mangle)]
pub extern "C" fn katydidzinc_space_rotation_mul(a: Rotation, b: Rotation) -> Rotation
    ensures { result ≡ product_of a b }
{
    spatial_comparison::katydidzinc_space_rotation_mul(a, b)
}

#[unsafe(no_mangle)]
pub extern "C" fn katydidzinc_space_rotation_inverse(a: Rotation) -> Rotation
    ensures { result ≡ inverse_of a }
{
    spatial_comparison::katydidzinc_space_rotation_inverse(a)
}

#[unsafe(no_mangle)]
pub extern "C" fn katydidzinc_space_rotation_dot(a: Rotation, b: Rotation) -> f32
    ensures { result ≡ dot_of a b }
{
    spatial_comparison::katydidzinc_space_rotation_dot(a, b)
}

#[unsafe(no_mangle)]
pub extern "C" fn katydidzinc_space_rotate(a: Rotation, v: Vector) -> Vector
    ensures { result ≡ rotate_of a v }
{
    spatial_comparison::katydidzinc_space_rotate(a, v)
}

// By its columns, as every matrix here.
#[unsafe(no_mangle)]
pub extern "C" fn katydidzinc_space_to_mat(a: Rotation) -> Matrix
    ensures { result ≡ to_mat_of a }
{
    spatial_comparison::katydidzinc_space_to_mat(a)
}

// The derivative of (inverse a) times b, not transposed.
#[unsafe(no_mangle)]
pub extern "C" fn katydidzinc_space_diff_conj1_2(a: Rotation, b: Rotation) -> Matrix
    ensures { result ≡ diff_conj12_of a b }
{
    spatial_comparison::katydidzinc_space_diff_conj1_2(a, b)
}

#[unsafe(no_mangle)]
pub extern "C" fn katydidzinc_space_matrix_mul(m: Matrix, n: Matrix) -> Matrix
    ensures { result ≡ matrix_product_of m n }
{
    spatial_comparison::katydidzinc_space_matrix_mul(m, n)
}

#[unsafe(no_mangle)]
pub extern "C" fn katydidzinc_space_pose_mul(p: Pose, q: Pose) -> Pose
    ensures { result ≡ pose_product_of p q }
{
    spatial_comparison::katydidzinc_space_pose_mul(p, q)
}

// 1 with the sign of x; that of NaN is plus.
#[unsafe(no_mangle)]
pub extern "C" fn katydidzinc_space_sign_of(x: f32) -> f32
    ensures { result ≡ sign_of x }
{
    spatial_comparison::katydidzinc_space_sign_of(x)
}
