// The study that a text describes: its lines one after the other, up to the first fault, and then the centres that are left out.
ghost use Rattle.std.specs.Prelude.{◌≡◌, List, ℕ, ◌≤◌, length};
ghost use Rattle.study_reader.specs.Storage.{numbers_size};
ghost use Rattle.study_reader.specs.Draft.{draft, start};
ghost use Rattle.study_reader.specs.Study.{is_left_out, middle, center_joint, center_joints, line_read, lines_read, ended, read_study};
ghost use Rattle.study_reader.specs.declared.draft.State.{State};

use crate::changes::apply;
use crate::draft::{MAX_ANGULAR, State, default_settings, faulty, reached, start};
use crate::faults::Fault;
use crate::items::read_line;
use crate::storage::{joint_base, number_at, set, set_word, word_at, words_base};
use crate::words::next_line;
use floats::bits::from_bits;
use model::layout::{CENTER_CHOICE, CENTER_RE, LIMITS_ANGULAR};

// ---- a centre that is left out

// No centre is given, the ends of the angular limit are, and they are less than a turn apart.
fn is_left_out(numbers: &[f32], origins: &[u32], base: usize) -> bool
    requires { base ≤ numbers_size }
    ensures { result ≡ is_left_out numbers.now origins.now base }
{
    if word_at(origins, base + CENTER_RE) != 0 {
        return false;
    }
    if word_at(origins, base + LIMITS_ANGULAR) == 0 {
        return false;
    }
    (number_at(numbers, base + MAX_ANGULAR) - number_at(numbers, base + LIMITS_ANGULAR)) * 0.5
        < from_bits(0x4049_0fdb)
}

// The middle of the two ends of joint j's angular limit, as the Rust takes it.
fn center_joint(numbers: &mut [f32], origins: &[u32], words: &mut [u32], j: u32)
    ensures { (st : State) (names : List ℕ) → draft st numbers.new origins.now words.new names ≡ center_joint j (draft st numbers.old origins.now words.old names) }
{
    let base = joint_base(j);
    if is_left_out(numbers, origins, base) {
        let min = number_at(numbers, base + LIMITS_ANGULAR);
        let max = number_at(numbers, base + MAX_ANGULAR);
        set(numbers, base + CENTER_RE, (min + max) * 0.5);
        set_word(words, words_base(j) + CENTER_CHOICE, 1);
    }
}

fn center_joints(numbers: &mut [f32], origins: &[u32], words: &mut [u32], joints: u32)
    ensures { (st : State) (names : List ℕ) → draft st numbers.new origins.now words.new names ≡ center_joints 0 joints (draft st numbers.old origins.now words.old names) }
{
    for j in 0..joints {
        center_joint(numbers, origins, words, j);
    }
}

// ---- lines

// The next line, unless there is a fault or no line.
fn next_state(
    text: &[u8],
    numbers: &mut [f32],
    origins: &mut [u32],
    words: &mut [u32],
    names: &mut [u32],
    st: State,
) -> State
    ensures { draft result numbers.new origins.new words.new names.new ≡ line_read text.now (draft st numbers.old origins.old words.old names.old) }
{
    if st.fault.is_some() {
        return st;
    }
    if text.len() <= st.at {
        return st;
    }
    let change = read_line(text, names, st);
    let after = apply(numbers, origins, words, names, st, change);
    reached(after, next_line(text, st.at))
}

// All lines: each has at least a byte. The rest of the turns would change nothing once there is a fault or no line.
fn read_lines(
    text: &[u8],
    numbers: &mut [f32],
    origins: &mut [u32],
    words: &mut [u32],
    names: &mut [u32],
) -> State
    ensures { draft result numbers.new origins.new words.new names.new ≡ lines_read text.now (length text.now) (draft start numbers.old origins.old words.old names.old) }
{
    let mut st = start();
    for _ in 0..text.len() {
        if st.fault.is_some() {
            return st;
        }
        if text.len() <= st.at {
            return st;
        }
        st = next_state(text, numbers, origins, words, names, st);
    }
    st
}

// A `repeat` that is open at the end is a fault.
fn ended(st: State) -> State
    ensures { result ≡ ended st }
{
    if st.fault.is_some() {
        return st;
    }
    if let Some(at) = st.repeat {
        return faulty(st, Fault::OpenRepeat, at);
    }
    st
}

// The whole text.
pub fn read_study(
    text: &[u8],
    numbers: &mut [f32],
    origins: &mut [u32],
    words: &mut [u32],
    names: &mut [u32],
) -> State
    ensures { draft result numbers.new origins.new words.new names.new ≡ read_study text.now numbers.old origins.old words.old names.old }
{
    default_settings(numbers);
    let st = ended(read_lines(text, numbers, origins, words, names));
    center_joints(numbers, origins, words, st.joints);
    st
}
