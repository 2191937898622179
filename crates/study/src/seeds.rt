// The study that a seed draws (document 02, R-11), printed.
use crate::input::{arg_count, say_argument};
use crate::model_text::print_model;
use crate::out::Console;
use crate::run::Stop;
use model::layout::{BODY_WIDTH, NUMBERS_WIDTH, WORDS_WIDTH};
use seeded::seeded::{SEEDED_BODIES, SEEDED_NUMBERS, SEEDED_WORDS, SeededModel, seeded};
use std::rt::Env;

// Digits, up to 4294967295. (`parse` alone takes a plus sign too.)
fn seed_of(word: &[u8]) -> Option<u32> {
    if !word.iter().all(|b| b.is_ascii_digit()) {
        return None;
    }
    str::from_utf8(word).ok()?.parse().ok()
}

fn say_no_seed(con: &Console) -> Stop {
    con.err(b"study: expected one seed after `seeded`, a whole number from 0 to 4294967295\n");
    Stop::Unread
}

// The model's text, which names its seed first; as many bodies and joints as there are.
fn print_records(
    con: &Console,
    seed: u32,
    drawn: SeededModel,
    bodies: &[f32],
    words: &[u32],
    numbers: &[f32],
) -> Result<(), Stop> {
    let b = BODY_WIDTH * drawn.bodies as usize;
    let w = WORDS_WIDTH * drawn.joints as usize;
    let n = NUMBERS_WIDTH * drawn.joints as usize;
    if bodies.len() < b || words.len() < w || numbers.len() < n {
        return Err(Stop::Unread);
    }
    con.out(b"# the study of seed ");
    con.out_number(seed as u64);
    con.out(b"\n");
    print_model(con, drawn.header, &bodies[..b], &words[..w], &numbers[..n])
}

fn print_seeded(con: &Console, seed: u32) -> Result<(), Stop> {
    let mut bodies = [0.0f32; SEEDED_BODIES];
    let mut words = [0u32; SEEDED_WORDS];
    let mut numbers = [0.0f32; SEEDED_NUMBERS];
    match seeded(seed, &mut bodies, &mut words, &mut numbers) {
        Some(drawn) => print_records(con, seed, drawn, &bodies, &words, &numbers),
        None => Err(Stop::Unread),
    }
}

// The seed is the argument after i, and the last one.
pub fn seeded_after(con: &Console, i: usize) -> Result<(), Stop> {
    if 4096 < i {
        return Err(Stop::Unread);
    }
    if arg_count(con) != i + 2 {
        return Err(say_no_seed(con));
    }
    let mut arg = [0u8; 4096];
    match con.rt.arg(i + 1, &mut arg) {
        Ok(n) => match seed_of(&arg[..n]) {
            Some(seed) => print_seeded(con, seed),
            None => Err(say_no_seed(con)),
        },
        Err(error) => Err(say_argument(con, error)),
    }
}
