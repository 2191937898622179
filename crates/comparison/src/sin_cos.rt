// The table of sines and the rotation of a typed angle, for the comparison.
ghost use Rattle.std.specs.Prelude.{◌≡◌};
ghost use Rattle.comparison.specs.SinCosExports.{sine_number, rotation_out};
ghost use Rattle.floats.specs.SinCos.{angle_too_large};

use floats::sin_cos::{angle_too_large, rotation_from_angle};
use floats::sines::sines;

// Entry k of the table; 0 past the last one.
#[unsafe(no_mangle)]
pub extern "C" fn katydidzinc_sine(k: u32) -> u32
    ensures { result ≡ sine_number k }
{
    if k > 4096 {
        return 0;
    }
    let table = sines();
    let i = k as usize;
    table[i]
}

// An angle's cosine and sine, in the first two places of `out`.
#[unsafe(no_mangle)]
pub extern "C" fn katydidzinc_rotation_from_angle(angle: f32, out: &mut [f32])
    ensures { out.new ≡ rotation_out angle out.old }
{
    if out.len() < 2 {
        return;
    }
    let r = rotation_from_angle(angle);
    out[0] = r.re;
    out[1] = r.im;
}

#[unsafe(no_mangle)]
pub extern "C" fn katydidzinc_angle_too_large(angle: f32) -> bool
    ensures { result ≡ angle_too_large angle }
{
    angle_too_large(angle)
}
