// The study that a text describes, read into storage that the caller lends. What the storage held before does not show: it is cleared first.
ghost use Rattle.std.specs.Prelude.{◌≡◌};
ghost use Rattle.study_reader.specs.Draft.{draft};
ghost use Rattle.study_capi.specs.StudyExports.{is_room, short_read, calls_at, told, study_read, read_at};

use study_reader::draft::State;
use study_reader::faults::{number_of, offset_of};
use study_reader::fields::CALLS;
use study_reader::read::read_study;
use study_reader::storage::{NAMES, NUMBERS, ORIGINS, WORDS};
use study_reader::words::{column_of, line_of};

// A slice is shorter than the storage of a study: the number that the other exports have for it.
pub const SHORT_SLICE: u32 = 1000;

// The first fault, 0 for none; how many bodies and joints there are; the fault's line and column from 1, the text's first where there is no fault; and where
// the line of the first call starts, the text's length where there is none.
#[repr(C)]
#[derive(Clone, Copy)]
pub struct StudyRead {
    pub fault: u32,
    pub bodies: u32,
    pub joints: u32,
    pub line: u64,
    pub column: u64,
    pub calls: usize,
}

#[tactic(auto, unfolding(crate::specs::StudyExports::is_room))]
fn is_room(numbers: &[f32], origins: &[u32], words: &[u32], names: &[u32]) -> bool
    ensures { result ≡ is_room numbers.now origins.now words.now names.now }
{
    NUMBERS <= numbers.len()
        && ORIGINS <= origins.len()
        && WORDS <= words.len()
        && NAMES <= names.len()
}

fn short_read() -> StudyRead
    ensures { result ≡ short_read }
{
    StudyRead {
        fault: SHORT_SLICE,
        bodies: 0,
        joints: 0,
        line: 0,
        column: 0,
        calls: 0,
    }
}

fn calls_at(text: &[u8], st: State) -> usize
    ensures { result ≡ calls_at text.now st }
{
    if st.kind == CALLS {
        st.calls
    } else {
        text.len()
    }
}

fn told(text: &[u8], st: State) -> StudyRead
    ensures { result ≡ told text.now st }
{
    StudyRead {
        fault: number_of(st.fault),
        bodies: st.bodies,
        joints: st.joints,
        line: line_of(text, offset_of(st.fault)),
        column: column_of(text, offset_of(st.fault)),
        calls: calls_at(text, st),
    }
}

fn read_cleared(
    text: &[u8],
    numbers: &mut [f32],
    origins: &mut [u32],
    words: &mut [u32],
    names: &mut [u32],
) -> State
    ensures { draft result numbers.new origins.new words.new names.new ≡ study_read text.now numbers.old origins.old words.old names.old }
{
    numbers.fill(0.0);
    origins.fill(0);
    words.fill(0);
    names.fill(0);
    read_study(text, numbers, origins, words, names)
}

#[unsafe(no_mangle)]
pub extern "C" fn katydidzinc_read_study(
    text: &[u8],
    numbers: &mut [f32],
    origins: &mut [u32],
    words: &mut [u32],
    names: &mut [u32],
) -> StudyRead
    ensures value { result ≡ (read_at text.now numbers.old origins.old words.old names.old).answer }
    ensures numbers_after { numbers.new ≡ (read_at text.now numbers.old origins.old words.old names.old).numbers }
    ensures origins_after { origins.new ≡ (read_at text.now numbers.old origins.old words.old names.old).origins }
    ensures words_after { words.new ≡ (read_at text.now numbers.old origins.old words.old names.old).words }
    ensures names_after { names.new ≡ (read_at text.now numbers.old origins.old words.old names.old).names }
{
    if is_room(numbers, origins, words, names) {
        told(text, read_cleared(text, numbers, origins, words, names))
    } else {
        short_read()
    }
}
