// The study that a text describes, as study_capi reads it.
ghost use Rattle.std.specs.Prelude.{◌≡◌};
ghost use Rattle.study_capi.specs.StudyExports.{read_at};

use study_capi::read::StudyRead;

#[unsafe(no_mangle)]
pub extern "C" fn katydidzinc_read_study(
    text: &[u8],
    numbers: &mut [f32],
    origins: &mut [u32],
    words: &mut [u32],
    names: &mut [u32],
) -> StudyRead
    ensures value { result ≡ (read_at text.now numbers.old origins.old words.old names.old).answer }
    ensures numbers_after { numbers.new ≡ (read_at text.now numbers.old origins.old words.old names.old).numbers }
    ensures origins_after { origins.new ≡ (read_at text.now numbers.old origins.old words.old names.old).origins }
    ensures words_after { words.new ≡ (read_at text.now numbers.old origins.old words.old names.old).words }
    ensures names_after { names.new ≡ (read_at text.now numbers.old origins.old words.old names.old).names }
{
    study_capi::read::katydidzinc_read_study(text, numbers, origins, words, names)
}
