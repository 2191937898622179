// Models drawn from seeds, as capi has them.
ghost use Rattle.std.specs.Prelude.{◌≡◌};
ghost use Rattle.capi.specs.SeedExports.{seeded_number, settings_out, seeded_at};

#[unsafe(no_mangle)]
pub extern "C" fn katydidzinc_seeded(
    seed: u32,
    settings: &mut [f32],
    bodies: &mut [f32],
    words: &mut [u32],
    numbers: &mut [f32],
) -> u64
    ensures value { result ≡ seeded_number (seeded_at seed settings.old bodies.old words.old numbers.old).answer }
    ensures settings_after { settings.new ≡ settings_out (seeded_at seed settings.old bodies.old words.old numbers.old).answer settings.old }
    ensures bodies_after { bodies.new ≡ (seeded_at seed settings.old bodies.old words.old numbers.old).bodies }
    ensures words_after { words.new ≡ (seeded_at seed settings.old bodies.old words.old numbers.old).words }
    ensures numbers_after { numbers.new ≡ (seeded_at seed settings.old bodies.old words.old numbers.old).numbers }
{
    capi::seeds::katydidzinc_seeded(seed, settings, bodies, words, numbers)
}
