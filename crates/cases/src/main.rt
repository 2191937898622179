// Runs the cases of document 01, from standard input, and prints each with its answer; the expected answers stand in the file
// `stdout` beside this folder. A line is the word of what is run, its arguments, and after a colon and a blank the case's name; `#`
// starts a comment. An argument is a decimal, or 0x and eight digits of bits. Answers are bits in hexadecimal, as document 01 has
// them, and every NaN is 7fc00000.
#![tactic(auto)]

ghost use Rattle.std.specs.Prelude.{◌≤◌, IfOk, length};

use crate::line::{Line, Step, floats_at};
use crate::models::{State, Storage};
use crate::show::name;
use std::io;
use std::io::Read;
use study_reader::words::next_line;

mod leaves;
mod line;
mod models;
mod show;

// One line. A call is given as much of the storage as the lines before it say.
fn run_line(rt: HostRuntime, text: &[u8], s: &mut State, storage: &mut Storage, l: &Line) {
    match l.step {
        Some(Step::Leaf(leaf)) => {
            name(rt, l.name);
            leaves::run(rt, leaf, floats_at(text, l.a));
        }
        Some(Step::Given(given)) => s.give(text, given, l, storage),
        Some(Step::Call(call)) => {
            if let Some(storage) = storage.given(s) {
                name(rt, l.name);
                s.call(rt, text, call, l, storage);
            }
        }
        None => (),
    }
}

// A text has no more lines than bytes.
fn run(rt: HostRuntime, text: &[u8], storage: &mut Storage) {
    let mut s = State::start();
    for _turn in 0..text.len() {
        if text.len() <= s.at {
            return;
        }
        let l = Line::at(text, s.at);
        s.at = next_line(text, l.a);
        run_line(rt, text, &mut s, storage, &l);
    }
}

// Reads standard input until it ends or the text is full. Answers how many bytes there are.
fn read_text(rt: HostRuntime, text: &mut [u8]) -> io::Result<usize>
    ensures { IfOk result (λ n. n ≤ length text.new) }
{
    let mut at = 0usize;
    for _turn in 0..text.len() {
        let got = rt.stdin().read(&mut text[at..])?;
        if got == 0 {
            return Ok(at);
        }
        at += got;
    }
    Ok(at)
}

fn main(rt: HostRuntime) -> io::Result<()> {
    let mut text = [0u8; 8192];
    let mut bodies = [0.0f32; 1290];
    let mut words = [0u32; 1548];
    let mut numbers = [0.0f32; 5418];
    let mut rows = [0.0f32; 54];
    let n = read_text(rt, &mut text)?;
    let mut storage = Storage {
        bodies: &mut bodies,
        words: &mut words,
        numbers: &mut numbers,
        rows: &mut rows,
    };
    storage.draw_words();
    run(rt, &text[..n], &mut storage);
    Ok(())
}
