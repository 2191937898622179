// What a line says, written.
ghost use Rattle.std.specs.Prelude.{◌≡◌, ◌+◌, set};
ghost use Rattle.study_reader.specs.Storage.{body_base, kept};
ghost use Rattle.study_reader.specs.Keywords.{body_item};
ghost use Rattle.study_reader.specs.Draft.{draft, opened, puts, body_defaults};
ghost use Rattle.study_reader.specs.Study.{second, center_with, numbers_with, origins_with, word_with, origin_with, name_with, open_joint, applied};

use crate::draft::{State, called, default_body, default_joint, faulty, item_base, opened};
use crate::fields::{BODY_ITEM, JOINT_ITEM, SETTINGS_ITEM};
use crate::items::{Change, Ends, Numbers};
use crate::layout::{BODY1_WORD, BODY2_WORD};
use crate::storage::{JOINT_NAMES, NUMBERS, kept, set, set_word, words_base};
use crate::words::Word;
use model::layout::CENTER_CHOICE;

// Where the joints' names start, in 32 bits.
const FROM_JOINTS: u32 = JOINT_NAMES as u32;

// ---- numbers

fn put_number(numbers: &mut [f32], origins: &mut [u32], place: usize, x: f32, at: usize)
    ensures { (numbers.new ≡ set numbers.old place x) × (origins.new ≡ set origins.old place (kept at)) }
{
    set(numbers, place, x);
    set_word(origins, place, kept(at));
}

// The second of two numbers.
fn put_second(numbers: &mut [f32], origins: &mut [u32], many: u32, place: usize, y: f32, at: usize)
    ensures { (numbers.new ≡ second many numbers.old place y) × (origins.new ≡ second many origins.old place (kept at)) }
{
    if 1 < many {
        put_number(numbers, origins, place, y, at);
    }
}

// How a joint's centre is given, where the numbers are a centre's.
fn put_center(words: &mut [u32], item: u32, center: u32)
    ensures { words.new ≡ center_with item center words.old }
{
    if center < 2 {
        set_word(words, words_base(item) + CENTER_CHOICE, center);
    }
}

fn put_numbers(numbers: &mut [f32], origins: &mut [u32], words: &mut [u32], st: State, n: Numbers)
    ensures { (numbers.new ≡ numbers_with st n numbers.old) × (origins.new ≡ origins_with st n origins.old) × (words.new ≡ center_with st.item n.center words.old) }
{
    let place = item_base(st) + n.place as usize;
    put_number(numbers, origins, place, n.x, n.x_at);
    put_second(numbers, origins, n.many, place + 1, n.y, n.y_at);
    put_center(words, st.item, n.center);
}

// ---- words and names

fn put_word(origins: &mut [u32], words: &mut [u32], item: u32, place: u32, value: u32, at: usize)
    ensures { (origins.new ≡ origin_with item place at origins.old) × (words.new ≡ word_with item place value words.old) }
{
    let o = words_base(item) + place as usize;
    set_word(words, o, value);
    set_word(origins, NUMBERS + o, kept(at));
}

// Name i of those that start at a place.
fn put_name(names: &mut [u32], from: u32, i: u32, w: Word)
    ensures { names.new ≡ name_with from i w names.old }
{
    let place = from as usize + 2 * i as usize;
    set_word(names, place, kept(w.start));
    set_word(names, place + 1, kept(w.end));
}

// ---- items

fn open_body(numbers: &mut [f32], names: &mut [u32], st: State, w: Word, bodies: u32) -> State
    ensures { (result ≡ opened st body_item st.bodies bodies st.joints) × (numbers.new ≡ puts (body_base st.bodies) body_defaults numbers.old) × (names.new ≡ name_with 0 st.bodies w names.old) }
{
    let i = st.bodies;
    put_name(names, 0, i, w);
    default_body(numbers, i);
    opened(st, BODY_ITEM, i, bodies, st.joints)
}

fn open_joint(
    numbers: &mut [f32],
    origins: &mut [u32],
    words: &mut [u32],
    names: &mut [u32],
    st: State,
    w: Word,
    joints: u32,
    ends: Ends,
) -> State
    ensures { draft result numbers.new origins.new words.new names.new ≡ open_joint w joints ends (draft st numbers.old origins.old words.old names.old) }
{
    let j = st.joints;
    put_name(names, FROM_JOINTS, j, w);
    default_joint(numbers, j);
    put_word(origins, words, j, BODY1_WORD, ends.body1, ends.at1);
    put_word(origins, words, j, BODY2_WORD, ends.body2, ends.at2);
    opened(st, JOINT_ITEM, j, st.bodies, joints)
}

pub fn apply(
    numbers: &mut [f32],
    origins: &mut [u32],
    words: &mut [u32],
    names: &mut [u32],
    st: State,
    change: Change,
) -> State
    ensures { draft result numbers.new origins.new words.new names.new ≡ applied change (draft st numbers.old origins.old words.old names.old) }
{
    match change {
        Change::Nothing => st,
        Change::Wrong(fault, at) => faulty(st, fault, at),
        Change::Given(n) => {
            put_numbers(numbers, origins, words, st, n);
            st
        }
        Change::JointWord(place, value, at) => {
            put_word(origins, words, st.item, place, value, at);
            st
        }
        Change::OpenSettings => opened(st, SETTINGS_ITEM, st.item, st.bodies, st.joints),
        Change::OpenBody(w, bodies) => open_body(numbers, names, st, w, bodies),
        Change::OpenJoint(w, joints, ends) => {
            open_joint(numbers, origins, words, names, st, w, joints, ends)
        }
        Change::Call(keyword, at) => called(st, keyword, at),
    }
}
