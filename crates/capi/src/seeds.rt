// Models drawn from seeds (document 02, R-11), for C, Rust and Python callers.
ghost use Rattle.std.specs.Prelude.{◌≡◌, ◌≤◌, length};
ghost use Rattle.capi.specs.SeedExports.{seeded_number, settings_out, seeded_at};

use crate::calls::SHORT_SLICE;
use crate::stored::put_three;
use seeded::seeded::{SeededModel, seeded};

// What a drawn model adds to its numbers of bodies, times 2^16, and of joints.
pub const SEEDED_GRANTED: u64 = 4294967296;

// The settings are stored in a slice of the caller's: dt, `length_unit`, `normalized_max_corrective_velocity`.
pub const SEEDED_SETTINGS: usize = 3;

fn put_answer(settings: &mut [f32], answer: Option<SeededModel>) -> u64
    requires { 3 ≤ length settings.old }
    ensures value { result ≡ seeded_number answer }
    ensures settings_after { settings.new ≡ settings_out answer settings.old }
{
    match answer {
        Some(m) => {
            let p = m.header.params;
            put_three(
                settings,
                0,
                p.dt,
                p.length_unit,
                p.normalized_max_corrective_velocity,
            );
            SEEDED_GRANTED + 65536 * m.bodies as u64 + m.joints as u64
        }
        None => SHORT_SLICE,
    }
}

#[unsafe(no_mangle)]
pub extern "C" fn katydidzinc_seeded(
    seed: u32,
    settings: &mut [f32],
    bodies: &mut [f32],
    words: &mut [u32],
    numbers: &mut [f32],
) -> u64
    ensures value { result ≡ seeded_number (seeded_at seed settings.old bodies.old words.old numbers.old).answer }
    ensures settings_after { settings.new ≡ settings_out (seeded_at seed settings.old bodies.old words.old numbers.old).answer settings.old }
    ensures bodies_after { bodies.new ≡ (seeded_at seed settings.old bodies.old words.old numbers.old).bodies }
    ensures words_after { words.new ≡ (seeded_at seed settings.old bodies.old words.old numbers.old).words }
    ensures numbers_after { numbers.new ≡ (seeded_at seed settings.old bodies.old words.old numbers.old).numbers }
{
    if settings.len() < SEEDED_SETTINGS {
        return SHORT_SLICE;
    }
    put_answer(settings, seeded(seed, bodies, words, numbers))
}
