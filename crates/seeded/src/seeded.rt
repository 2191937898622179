// The model that a seed draws, in lent storage.
ghost use Rattle.std.specs.Prelude.{◌≡◌, true, ◌*◌, ◌<◌, ◌≤◌, length};
ghost use Rattle.model.specs.Layout.{body_width, words_width, numbers_width};
ghost use Rattle.seeded.specs.Seeded.{bodies_of, joints_of, mask_of, first_of, second_of, further, body_number, joint_number, joint_word, header_of, body_place, word_place, number_place};
ghost use Rattle.seeded.specs.Left.{left, room, front, seeded_of};

use crate::draws::{draw, number};
use model::layout::{BODY_WIDTH, NUMBERS_WIDTH, WORDS_WIDTH, WORLD};
use multibody::header::Header;
use rows::integration_parameters::IntegrationParameters;

// What the slices must have room for, whatever the seed: eight bodies, and eight joints' words and numbers.
pub const SEEDED_BODIES: usize = 80;

pub const SEEDED_WORDS: usize = 96;

pub const SEEDED_NUMBERS: usize = 336;

// The row storage that every such model can be loaded with, in rows.
pub const SEEDED_ROWS: usize = 48;

// The header, and how many bodies and joints there are: the slices start with so many records.
#[derive(Clone, Copy)]
pub struct SeededModel {
    pub header: Header,
    pub bodies: u32,
    pub joints: u32,
}

fn bodies_of(seed: u32) -> u32
    ensures { result ≡ bodies_of seed }
{
    1 + draw(seed, 0) % 8
}

fn joints_of(seed: u32) -> u32
    ensures { result ≡ joints_of seed }
{
    draw(seed, 1) % 9
}

fn mask_of(seed: u32, j: u32, c: u32) -> u32
    requires j_bound { j < 8 }
    requires c_bound { c < 4 }
    ensures { result ≡ mask_of seed j c }
{
    draw(seed, 2 + 6 * j + c) % 8
}

fn first_of(seed: u32, j: u32) -> u32
    requires { j < 8 }
    ensures { result ≡ first_of seed j }
{
    draw(seed, 2 + 6 * j + 4) % bodies_of(seed)
}

#[tactic(auto, unfolding(crate::specs::Seeded::second_of))]
fn second_of(seed: u32, j: u32) -> u32
    requires { j < 8 }
    ensures { result ≡ second_of seed j }
{
    let n = bodies_of(seed);
    let b = draw(seed, 2 + 6 * j + 5) % (n + 1);
    if b == n || b == first_of(seed, j) {
        WORLD
    } else {
        b
    }
}

// Number k of those that follow the joints' masks and bodies.
fn further(seed: u32, k: u32) -> f32
    requires { k < 1000 }
    ensures { result ≡ further seed k }
{
    number(draw(seed, 2 + 6 * joints_of(seed) + k))
}

#[tactic(auto, unfolding(crate::specs::Seeded::body_number))]
fn body_number(seed: u32, i: u32, c: u32) -> f32
    requires i_bound { i < 8 }
    requires c_bound { c < 10 }
    ensures { result ≡ body_number seed i c }
{
    match c {
        0 => 1.0,
        1 => 0.0,
        _ => further(seed, 2 + 8 * i + (c - 2)),
    }
}

// The rotations of a joint's frames are not drawn.
#[tactic(auto, using(crate::proofs::PlaceLaws::few_bodies), unfolding(crate::specs::Seeded::joint_number))]
fn joint_number(seed: u32, j: u32, c: u32) -> f32
    requires j_bound { j < 8 }
    requires c_bound { c < 42 }
    ensures { result ≡ joint_number seed j c }
{
    match c {
        0 | 4 => 1.0,
        1 | 5 => 0.0,
        _ => {
            let o = 2 + 8 * bodies_of(seed) + 38 * j;
            if c < 4 {
                further(seed, o + (c - 2))
            } else {
                further(seed, o + (c - 4))
            }
        }
    }
}

#[tactic(auto, unfolding(crate::specs::Seeded::joint_word))]
fn joint_word(seed: u32, j: u32, c: u32) -> u32
    requires { j < 8 }
    ensures { result ≡ joint_word seed j c }
{
    match c {
        0 => first_of(seed, j),
        1 => second_of(seed, j),
        2..=5 => mask_of(seed, j, c - 2),
        _ => 0,
    }
}

fn header_of(seed: u32) -> Header
    ensures { result ≡ header_of seed }
{
    Header {
        params: IntegrationParameters {
            dt: 0.015625,
            length_unit: further(seed, 0),
            normalized_max_corrective_velocity: further(seed, 1),
        },
        built: false,
    }
}

// The three slices have their own types and places in their contracts, so that one function of a closure would say less.
fn put_bodies(seed: u32, n: usize, bodies: &mut [f32])
    requires n_bound { n ≤ 8 }
    requires body_width_in_bounds { n * body_width ≤ length bodies.old }
    ensures { bodies.new ≡ front (n * body_width) (body_place seed) bodies.old }
{
    for p in 0..n * BODY_WIDTH {
        bodies[p] = body_number(seed, (p / BODY_WIDTH) as u32, (p % BODY_WIDTH) as u32);
    }
}

fn put_words(seed: u32, joints: usize, words: &mut [u32])
    requires joints_bound { joints ≤ 8 }
    requires words_width_in_bounds { joints * words_width ≤ length words.old }
    ensures { words.new ≡ front (joints * words_width) (word_place seed) words.old }
{
    for p in 0..joints * WORDS_WIDTH {
        words[p] = joint_word(seed, (p / WORDS_WIDTH) as u32, (p % WORDS_WIDTH) as u32);
    }
}

fn put_numbers(seed: u32, joints: usize, numbers: &mut [f32])
    requires joints_bound { joints ≤ 8 }
    requires numbers_width_in_bounds { joints * numbers_width ≤ length numbers.old }
    ensures { numbers.new ≡ front (joints * numbers_width) (number_place seed) numbers.old }
{
    for p in 0..joints * NUMBERS_WIDTH {
        numbers[p] = joint_number(seed, (p / NUMBERS_WIDTH) as u32, (p % NUMBERS_WIDTH) as u32);
    }
}

#[tactic(auto, unfolding(crate::specs::Left::room))]
fn room(bodies: &[f32], words: &[u32], numbers: &[f32]) -> bool
    ensures value { result ≡ room bodies.now words.now numbers.now }
    ensures enough { result ≡ true → (80 ≤ length bodies.now) × (96 ≤ length words.now) × (336 ≤ length numbers.now) }
{
    SEEDED_BODIES <= bodies.len() && SEEDED_WORDS <= words.len() && SEEDED_NUMBERS <= numbers.len()
}

// Draws the model. What follows its records in a slice stays, and where a slice is too short nothing is written.
pub fn seeded(
    seed: u32,
    bodies: &mut [f32],
    words: &mut [u32],
    numbers: &mut [f32],
) -> Option<SeededModel>
    ensures { left result bodies.new words.new numbers.new ≡ seeded_of seed bodies.old words.old numbers.old }
{
    if !room(bodies, words, numbers) {
        return None;
    }
    let n = bodies_of(seed);
    let joints = joints_of(seed);
    put_bodies(seed, n as usize, bodies);
    put_words(seed, joints as usize, words);
    put_numbers(seed, joints as usize, numbers);
    Some(SeededModel {
        header: header_of(seed),
        bodies: n,
        joints,
    })
}
