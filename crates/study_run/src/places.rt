// Where a study is in its text: the line that comes next, and the `repeat` that is open, by where its first line is and how many turns are left after this one.
ghost use Rattle.std.specs.Prelude.{◌≡◌, length};
ghost use Rattle.study_run.specs.Places.{is_end, skip_from, moved, repeating, after_repeat, after_end, place_after};

use crate::acts::{Act, act_at};
use study_reader::words::next_line;

// Where no turn is left, whether a `repeat` is open makes no difference.
#[derive(Clone, Copy)]
pub struct Place {
    pub at: usize,
    pub first: usize,
    pub left: u32,
}

fn is_end(act: Act) -> bool
    ensures { result ≡ is_end act }
{
    matches!(act, Act::End)
}

// Past the `end` of a `repeat` of no turns.
fn skip(text: &[u8], names: &[u32], body_count: u32, joint_count: u32, from: usize) -> usize
    ensures { result ≡ skip_from text.now names.now body_count joint_count (length text.now) from }
{
    let mut at = from;
    for _line in 0..text.len() {
        let ends = is_end(act_at(text, names, body_count, joint_count, at));
        at = next_line(text, at);
        if ends {
            return at;
        }
    }
    at
}

// The same `repeat`, another line.
fn moved(p: Place, at: usize) -> Place
    ensures { result ≡ moved p at }
{
    Place { at, ..p }
}

// A turn of a `repeat` begins.
fn repeating(first: usize, left: u32) -> Place
    ensures { result ≡ repeating first left }
{
    Place {
        at: first,
        first,
        left,
    }
}

fn after_repeat(
    text: &[u8],
    names: &[u32],
    body_count: u32,
    joint_count: u32,
    p: Place,
    turns: u32,
) -> Place
    ensures { result ≡ after_repeat text.now names.now body_count joint_count p turns }
{
    let next = next_line(text, p.at);
    if turns == 0 {
        moved(p, skip(text, names, body_count, joint_count, next))
    } else {
        repeating(next, turns - 1)
    }
}

fn after_end(text: &[u8], p: Place) -> Place
    ensures { result ≡ after_end text.now p }
{
    if p.left == 0 {
        moved(p, next_line(text, p.at))
    } else {
        repeating(p.first, p.left - 1)
    }
}

// After the act at the place.
pub fn place_after(
    text: &[u8],
    names: &[u32],
    body_count: u32,
    joint_count: u32,
    p: Place,
    act: Act,
) -> Place
    ensures { result ≡ place_after text.now names.now body_count joint_count p act }
{
    match act {
        Act::Nothing | Act::Call(_) => moved(p, next_line(text, p.at)),
        Act::Repeat(turns) => after_repeat(text, names, body_count, joint_count, p, turns),
        Act::End => after_end(text, p),
    }
}
