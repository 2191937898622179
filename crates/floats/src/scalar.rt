// The comparisons that the Rust takes from its scalar type, as document 01's stand-ins have them.
ghost use Rattle.std.specs.Prelude.{◌≡◌, false};
ghost use Rattle.std.specs.Float.{inf};
ghost use Rattle.floats.specs.Scalar.{max_of, min_of, clamped_of, is_finite};

// Which bound a clamp met. A number that equals a bound is inside, and so is a NaN.
#[derive(Clone, Copy)]
pub enum Side {
    Low,
    High,
    Inside,
}

// A number within its bounds, and which of them it met.
#[derive(Clone, Copy)]
pub struct Clamped {
    pub value: f32,
    pub side: Side,
}

pub fn infinity() -> f32
    ensures { result ≡ inf false }
{
    f32::INFINITY
}

pub fn max(a: f32, b: f32) -> f32
    ensures { result ≡ max_of a b }
{
    if a >= b { a } else { b }
}

pub fn min(a: f32, b: f32) -> f32
    ensures { result ≡ min_of a b }
{
    if a <= b { a } else { b }
}

pub fn clamp(x: f32, low: f32, high: f32) -> Clamped
    ensures { result ≡ clamped_of x low high }
{
    if x < low {
        return Clamped {
            value: low,
            side: Side::Low,
        };
    }
    if x > high {
        return Clamped {
            value: high,
            side: Side::High,
        };
    }
    Clamped {
        value: x,
        side: Side::Inside,
    }
}

// Whether x is neither a NaN nor an infinity.
pub fn is_finite(x: f32) -> bool
    ensures { result ≡ is_finite x }
{
    let infinity = infinity();
    -infinity < x && x < infinity
}
