// The sign bit of a float, and what the Rust makes of it.
ghost use Rattle.std.specs.Prelude.{◌≡◌};
ghost use Rattle.floats.specs.Sign.{sign_bit, abs_of, signum_of};

// Whether the sign bit is set, as it is in -0. Of a NaN: false.
pub fn sign_bit(x: f32) -> bool
    ensures { result ≡ sign_bit x }
{
    if x != x {
        return false;
    }
    f32::to_bits(x) >= 0x8000_0000
}

pub fn abs(x: f32) -> f32
    ensures { result ≡ abs_of x }
{
    if sign_bit(x) { -x } else { x }
}

pub fn signum(x: f32) -> f32
    ensures { result ≡ signum_of x }
{
    if x != x {
        return x;
    }
    if sign_bit(x) { -1.0 } else { 1.0 }
}
