// The pair of a typed angle, as comparison has it.
ghost use Rattle.std.specs.Prelude.{◌≡◌};
ghost use Rattle.comparison.specs.SinCosExports.{sine_number, rotation_out};
ghost use Rattle.floats.specs.SinCos.{angle_too_large};

// Entry k of the table; 0 past the last one.
#[unsafe(no_mangle)]
pub extern "C" fn katydidzinc_sine(k: u32) -> u32
    ensures { result ≡ sine_number k }
{
    comparison::sin_cos::katydidzinc_sine(k)
}

// An angle's cosine and sine, in the first two places of `out`.
#[unsafe(no_mangle)]
pub extern "C" fn katydidzinc_rotation_from_angle(angle: f32, out: &mut [f32])
    ensures { out.new ≡ rotation_out angle out.old }
{
    comparison::sin_cos::katydidzinc_rotation_from_angle(angle, out);
}

#[unsafe(no_mangle)]
pub extern "C" fn katydidzinc_angle_too_large(angle: f32) -> bool
    ensures { result ≡ angle_too_large angle }
{
    comparison::sin_cos::katydidzinc_angle_too_large(angle)
}
