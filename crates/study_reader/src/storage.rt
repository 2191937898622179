// Where a study's numbers and words stand in the lent storage: settings, bodies and joints in one storage of numbers, beside it the place in the text at which
// each number and word was given (0: it was not), the joints' words, and the names. A place past the end holds nothing and keeps nothing.
ghost use Rattle.std.specs.Prelude.{◌≡◌, get_or, set};
ghost use Rattle.floats.specs.Operators.{bits};
ghost use Rattle.study_reader.specs.Storage.{body_base, joint_base, words_base, kept};

use model::layout::{BODY_WIDTH, NUMBERS_WIDTH, WORDS_WIDTH};

// One more body or joint than a model may have is kept, so that a load can refuse it.
pub const MOST: u32 = 129;

// The settings.
pub const DT: usize = 0;

pub const LENGTH_UNIT: usize = 1;

pub const MAX_CORRECTIVE_VELOCITY: usize = 2;

// Where bodies and joints start in the numbers, after the three of the settings; and how many numbers, words and offsets there are.
pub const BODIES: usize = 3;

pub const JOINTS: usize = BODIES + MOST as usize * BODY_WIDTH;

pub const NUMBERS: usize = JOINTS + MOST as usize * NUMBERS_WIDTH;

pub const WORDS: usize = MOST as usize * WORDS_WIDTH;

pub const ORIGINS: usize = NUMBERS + WORDS;

// Names: start and end, of bodies and then of joints.
pub const JOINT_NAMES: usize = 2 * MOST as usize;

pub const NAMES: usize = 2 * JOINT_NAMES;

// Where body i's numbers start, and joint j's numbers and words.
pub fn body_base(i: u32) -> usize
    ensures { result ≡ body_base i }
{
    if i < MOST {
        return BODIES + BODY_WIDTH * i as usize;
    }
    NUMBERS
}

pub fn joint_base(j: u32) -> usize
    ensures { result ≡ joint_base j }
{
    if j < MOST {
        return JOINTS + NUMBERS_WIDTH * j as usize;
    }
    NUMBERS
}

pub fn words_base(j: u32) -> usize
    ensures { result ≡ words_base j }
{
    if j < MOST {
        return WORDS_WIDTH * j as usize;
    }
    WORDS
}

// An offset as it is kept.
pub fn kept(at: usize) -> u32
    ensures { result ≡ kept at }
{
    if at < 4294967295 {
        return at as u32;
    }
    4294967295
}

pub fn set(s: &mut [f32], at: usize, x: f32)
    ensures { s.new ≡ set s.old at x }
{
    if at < s.len() {
        s[at] = x;
    }
}

pub fn set_word(s: &mut [u32], at: usize, x: u32)
    ensures { s.new ≡ set s.old at x }
{
    if at < s.len() {
        s[at] = x;
    }
}

pub fn number_at(s: &[f32], at: usize) -> f32
    ensures { result ≡ get_or s.now at (bits 0) }
{
    if at < s.len() {
        return s[at];
    }
    0.0
}

pub fn word_at(s: &[u32], at: usize) -> u32
    ensures { result ≡ get_or s.now at 0 }
{
    if at < s.len() {
        return s[at];
    }
    0
}
