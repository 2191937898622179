// Names of bodies and joints, as words of the text.
ghost use Rattle.std.specs.Prelude.{◌≡◌};
ghost use Rattle.study_reader.specs.Names.{name_at, body_name, joint_name, find_body, find_joint, find_end};

use crate::storage::{JOINT_NAMES, word_at};
use crate::words::{Word, is, same_words};
use model::layout::WORLD;

// The name that stands at a place of the names.
fn name_at(names: &[u32], at: usize) -> Word
    ensures { result ≡ name_at names.now at }
{
    if at < names.len() {
        return Word {
            start: names[at] as usize,
            end: word_at(names, at + 1) as usize,
        };
    }
    Word { start: 0, end: 0 }
}

pub fn body_name(names: &[u32], i: u32) -> Word
    ensures { result ≡ body_name names.now i }
{
    name_at(names, 2 * i as usize)
}

pub fn joint_name(names: &[u32], j: u32) -> Word
    ensures { result ≡ joint_name names.now j }
{
    name_at(names, JOINT_NAMES + 2 * j as usize)
}

// The body with a name, of the first so many.
pub fn find_body(text: &[u8], names: &[u32], bodies: u32, w: Word) -> Option<u32>
    ensures { result ≡ find_body text.now names.now bodies w }
{
    for i in 0..bodies {
        if same_words(text, body_name(names, i), w) {
            return Some(i);
        }
    }
    None
}

pub fn find_joint(text: &[u8], names: &[u32], joints: u32, w: Word) -> Option<u32>
    ensures { result ≡ find_joint text.now names.now joints w }
{
    for j in 0..joints {
        if same_words(text, joint_name(names, j), w) {
            return Some(j);
        }
    }
    None
}

// A joint's body: a body's name, or `world`.
pub fn find_end(text: &[u8], names: &[u32], bodies: u32, w: Word) -> Option<u32>
    ensures { result ≡ find_end text.now names.now bodies w }
{
    if is(text, w, b"world") {
        return Some(WORLD);
    }
    find_body(text, names, bodies, w)
}
