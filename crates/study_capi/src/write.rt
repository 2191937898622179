// The text of a model, written to a slice of the caller's.
ghost use Rattle.std.specs.Prelude.{◌≡◌, length};
ghost use Rattle.texts.specs.Written.{written};
ghost use Rattle.study_writer.specs.Printed.{printed_text};
ghost use Rattle.study_capi.specs.StudyExports.{lent};

use multibody::header::Header;
use rows::integration_parameters::IntegrationParameters;
use study_writer::study::write_study;

// The text's length, whether or not there is room for it; 0 where the model has more than 128 bodies or 128 joints.
#[unsafe(no_mangle)]
pub extern "C" fn katydidzinc_write_study(
    dt: f32,
    length_unit: f32,
    normalized: f32,
    bodies: &[f32],
    words: &[u32],
    numbers: &[f32],
    out: &mut [u8],
) -> usize
    ensures value { result ≡ length (printed_text (lent dt length_unit normalized bodies.now words.now numbers.now)) }
    ensures out_after { out.new ≡ written out.old (printed_text (lent dt length_unit normalized bodies.now words.now numbers.now)) }
{
    let header = Header {
        params: IntegrationParameters {
            dt,
            length_unit,
            normalized_max_corrective_velocity: normalized,
        },
        built: false,
    };
    write_study(out, header, bodies, words, numbers)
}
