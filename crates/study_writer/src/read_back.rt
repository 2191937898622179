// Print, then read (specs/ReadBack.antt).
ghost use Rattle.model.specs.Model.{model_of};
ghost use Rattle.study_reader.specs.Draft.{draft};
ghost use Rattle.study_writer.specs.ReadBack.{WroteAndRead};

use crate::study::write_study;
use multibody::header::Header;
use study_reader::draft::State;
use study_reader::read::read_study;

// Writes the text of a model to the front of `out` and reads it from there: what is read into the storage is the model. Where `out` is too short, the empty text is read.
pub fn read_back(
    out: &mut [u8],
    header: Header,
    bodies: &[f32],
    words: &[u32],
    numbers: &[f32],
    read_numbers: &mut [f32],
    origins: &mut [u32],
    read_words: &mut [u32],
    names: &mut [u32],
) -> State
    ensures { WroteAndRead (model_of header bodies.now words.now numbers.now) out.old out.new read_numbers.old origins.old read_words.old names.old (draft result read_numbers.new origins.new read_words.new names.new) }
{
    let n = write_study(&mut *out, header, bodies, words, numbers);
    if out.len() < n {
        return read_study(b"", read_numbers, origins, read_words, names);
    }
    read_study(&out[..n], read_numbers, origins, read_words, names)
}
