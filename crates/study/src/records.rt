// A study's numbers and words as they were read, by body or joint and by their place in its record; 0 where there is none.
use floats::rotation_ops::Rotation;
use floats::vector::Vector;
use study_reader::storage::{NUMBERS, body_base, joint_base, number_at, word_at, words_base};

// A place of a record that starts at a base, if there is such a record. (A base of none is NUMBERS, where the origins of the words start.)
fn within(base: usize, place: usize) -> Option<usize> {
    if base < NUMBERS {
        base.checked_add(place)
    } else {
        None
    }
}

fn number_in(draft: &[f32], base: usize, place: usize) -> f32 {
    within(base, place).map_or(0.0, |at| number_at(draft, at))
}

fn word_in(words: &[u32], base: usize, place: usize) -> u32 {
    within(base, place).map_or(0, |at| word_at(words, at))
}

pub fn body_number(draft: &[f32], i: u32, place: usize) -> f32 {
    number_in(draft, body_base(i), place)
}

pub fn joint_number(draft: &[f32], j: u32, place: usize) -> f32 {
    number_in(draft, joint_base(j), place)
}

pub fn joint_word(words: &[u32], j: u32, place: usize) -> u32 {
    word_in(words, words_base(j), place)
}

// Where the number of a body, or of a joint, was given; 0 where it was not.
pub fn body_origin(origins: &[u32], i: u32, place: usize) -> u32 {
    word_in(origins, body_base(i), place)
}

pub fn joint_origin(origins: &[u32], j: u32, place: usize) -> u32 {
    word_in(origins, joint_base(j), place)
}

// ---- poses

// Where body i is; the world's is the origin.
pub fn body_at(draft: &[f32], i: u32) -> Vector {
    Vector {
        x: body_number(draft, i, 2),
        y: body_number(draft, i, 3),
    }
}

fn rotation_at(draft: &[f32], i: u32) -> Rotation {
    if NUMBERS <= body_base(i) {
        return Rotation { re: 1.0, im: 0.0 };
    }
    Rotation {
        re: body_number(draft, i, 0),
        im: body_number(draft, i, 1),
    }
}

// A point on body i, in the world.
fn on_body(draft: &[f32], i: u32, x: f32, y: f32) -> Vector {
    let rotation = rotation_at(draft, i);
    let turned = rotation.rotate(Vector { x, y });
    turned.add(body_at(draft, i))
}

// A rotation on body i, in the world.
fn turned_with(draft: &[f32], i: u32, re: f32, im: f32) -> Rotation {
    let body = rotation_at(draft, i);
    Rotation {
        re: body.re * re - body.im * im,
        im: body.re * im + body.im * re,
    }
}

// A joint's first frame, and its second.
pub fn frame1_at(draft: &[f32], words: &[u32], j: u32) -> Vector {
    let x = joint_number(draft, j, 2);
    on_body(draft, joint_word(words, j, 0), x, joint_number(draft, j, 3))
}

pub fn frame2_at(draft: &[f32], words: &[u32], j: u32) -> Vector {
    let x = joint_number(draft, j, 6);
    on_body(draft, joint_word(words, j, 1), x, joint_number(draft, j, 7))
}

pub fn frame1_rotation(draft: &[f32], words: &[u32], j: u32) -> Rotation {
    let re = joint_number(draft, j, 0);
    turned_with(
        draft,
        joint_word(words, j, 0),
        re,
        joint_number(draft, j, 1),
    )
}

pub fn frame2_rotation(draft: &[f32], words: &[u32], j: u32) -> Rotation {
    let re = joint_number(draft, j, 4);
    turned_with(
        draft,
        joint_word(words, j, 1),
        re,
        joint_number(draft, j, 5),
    )
}
