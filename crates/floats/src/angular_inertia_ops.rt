// The Rust's utils/angular_inertia_ops.rs: in the plane an angular inertia is one number.
ghost use Rattle.std.specs.Prelude.{◌≡◌};
ghost use Rattle.floats.specs.Vector.{transform_vector_of};

pub fn transform_vector(ii: f32, pt: f32) -> f32
    ensures { result ≡ transform_vector_of ii pt }
{
    pt * ii
}
