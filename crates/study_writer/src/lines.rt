// Lines of words and numbers. Numbers and words are read from a slice: number k of the record that starts at place o.
ghost use Rattle.std.specs.Prelude.{[], ◌∷◌, ◌+◌, ◌≤◌, length, get_or};
ghost use Rattle.std.specs.Float.{nan};
ghost use Rattle.model.specs.Layout.{numbers_width, center_place};
ghost use Rattle.texts.specs.Digits.{decimal};
ghost use Rattle.texts.specs.Ascii.{ascii, SPACE};
ghost use Rattle.study_writer.specs.Text.{lines_text, number_word, body_word, joint_word, end_word, model_word, enabled_word, center_line};
ghost use Rattle.texts.specs.Sink.{Appended};

use decimals::text::number_text;
use model::layout::{CENTER_RE, WORLD};
use texts::sink::{put_byte, put_decimal, put_text};

// ---- words and numbers

// A word after a blank.
fn put_word(out: &mut [u8], at: usize, word: &[u8]) -> usize
    ensures { Appended out.old at (SPACE ∷ word.now) out.new result }
{
    let a = put_byte(&mut *out, at, b' ');
    put_text(&mut *out, a, word)
}

// A number after a blank.
fn put_number(out: &mut [u8], at: usize, x: f32) -> usize
    ensures { Appended out.old at (SPACE ∷ number_word x) out.new result }
{
    let word = number_text(x);
    put_word(&mut *out, at, &word)
}

pub fn put_one(out: &mut [u8], at: usize, name: &[u8], s: &[f32], o: usize, k: usize) -> usize
    requires { o + (k + 1) ≤ length s.now }
    ensures { Appended out.old at (lines_text ((name.now ∷ number_word (get_or s.now (o + k) nan) ∷ []) ∷ [])) out.new result }
{
    let a = put_text(&mut *out, at, name);
    let b = put_number(&mut *out, a, s[o + k]);
    put_byte(&mut *out, b, b'\n')
}

pub fn put_two(out: &mut [u8], at: usize, name: &[u8], s: &[f32], o: usize, k: usize) -> usize
    requires { o + (k + 2) ≤ length s.now }
    ensures { Appended out.old at (lines_text ((name.now ∷ number_word (get_or s.now (o + k) nan) ∷ number_word (get_or s.now (o + (k + 1)) nan) ∷ []) ∷ [])) out.new result }
{
    let a = put_text(&mut *out, at, name);
    let b = put_number(&mut *out, a, s[o + k]);
    let c = put_number(&mut *out, b, s[o + (k + 1)]);
    put_byte(&mut *out, c, b'\n')
}

pub fn put_one_of(
    out: &mut [u8],
    at: usize,
    name: &[u8],
    axis: &[u8],
    s: &[f32],
    o: usize,
    k: usize,
) -> usize
    requires { o + (k + 1) ≤ length s.now }
    ensures { Appended out.old at (lines_text ((name.now ∷ axis.now ∷ number_word (get_or s.now (o + k) nan) ∷ []) ∷ [])) out.new result }
{
    let a = put_text(&mut *out, at, name);
    let b = put_word(&mut *out, a, axis);
    let c = put_number(&mut *out, b, s[o + k]);
    put_byte(&mut *out, c, b'\n')
}

pub fn put_two_of(
    out: &mut [u8],
    at: usize,
    name: &[u8],
    axis: &[u8],
    s: &[f32],
    o: usize,
    k: usize,
) -> usize
    requires { o + (k + 2) ≤ length s.now }
    ensures { Appended out.old at (lines_text ((name.now ∷ axis.now ∷ number_word (get_or s.now (o + k) nan) ∷ number_word (get_or s.now (o + (k + 1)) nan) ∷ []) ∷ [])) out.new result }
{
    let a = put_text(&mut *out, at, name);
    let b = put_word(&mut *out, a, axis);
    let c = put_number(&mut *out, b, s[o + k]);
    let d = put_number(&mut *out, c, s[o + (k + 1)]);
    put_byte(&mut *out, d, b'\n')
}

// ---- names

fn put_body_word(out: &mut [u8], at: usize, i: u32) -> usize
    ensures { Appended out.old at (SPACE ∷ body_word i) out.new result }
{
    let a = put_text(&mut *out, at, b" b");
    put_decimal(&mut *out, a, i)
}

fn put_joint_word(out: &mut [u8], at: usize, j: u32) -> usize
    ensures { Appended out.old at (SPACE ∷ joint_word j) out.new result }
{
    let a = put_text(&mut *out, at, b" j");
    put_decimal(&mut *out, a, j)
}

// A joint's body: a body's name, or the world's.
fn put_end(out: &mut [u8], at: usize, i: u32) -> usize
    ensures { Appended out.old at (SPACE ∷ end_word i) out.new result }
{
    if i == WORLD {
        return put_text(&mut *out, at, b" world");
    }
    put_body_word(&mut *out, at, i)
}

pub fn put_body_line(out: &mut [u8], at: usize, i: u32) -> usize
    ensures { Appended out.old at (lines_text ((ascii "body" ∷ body_word i ∷ []) ∷ [])) out.new result }
{
    let a = put_text(&mut *out, at, b"body");
    let b = put_body_word(&mut *out, a, i);
    put_byte(&mut *out, b, b'\n')
}

pub fn put_joint_line(out: &mut [u8], at: usize, j: u32, body1: u32, body2: u32) -> usize
    ensures { Appended out.old at (lines_text ((ascii "joint" ∷ joint_word j ∷ end_word body1 ∷ end_word body2 ∷ []) ∷ [])) out.new result }
{
    let a = put_text(&mut *out, at, b"joint");
    let b = put_joint_word(&mut *out, a, j);
    let c = put_end(&mut *out, b, body1);
    let d = put_end(&mut *out, c, body2);
    put_byte(&mut *out, d, b'\n')
}

// ---- words

pub fn put_mask(out: &mut [u8], at: usize, name: &[u8], mask: u32) -> usize
    ensures { Appended out.old at (lines_text ((name.now ∷ decimal mask ∷ []) ∷ [])) out.new result }
{
    let a = put_text(&mut *out, at, name);
    let b = put_byte(&mut *out, a, b' ');
    let c = put_decimal(&mut *out, b, mask);
    put_byte(&mut *out, c, b'\n')
}

fn put_model_word(out: &mut [u8], at: usize, m: u32) -> usize
    ensures { Appended out.old at (SPACE ∷ model_word m) out.new result }
{
    if m == 0 {
        return put_text(&mut *out, at, b" acceleration");
    }
    put_text(&mut *out, at, b" force")
}

pub fn put_model(out: &mut [u8], at: usize, axis: &[u8], m: u32) -> usize
    ensures { Appended out.old at (lines_text ((ascii "motor_model" ∷ axis.now ∷ model_word m ∷ []) ∷ [])) out.new result }
{
    let a = put_text(&mut *out, at, b"motor_model");
    let b = put_word(&mut *out, a, axis);
    let c = put_model_word(&mut *out, b, m);
    put_byte(&mut *out, c, b'\n')
}

pub fn put_enabled(out: &mut [u8], at: usize, e: u32) -> usize
    ensures { Appended out.old at (lines_text ((enabled_word e ∷ []) ∷ [])) out.new result }
{
    if e == 0 {
        return put_text(&mut *out, at, b"enabled\n");
    }
    if e == 1 {
        return put_text(&mut *out, at, b"disabled_by_attached_body\n");
    }
    put_text(&mut *out, at, b"disabled\n")
}

pub fn put_center(out: &mut [u8], at: usize, choice: u32, s: &[f32], o: usize) -> usize
    requires { o + numbers_width ≤ length s.now }
    ensures { Appended out.old at (lines_text (center_line choice (get_or s.now (o + center_place) nan) (get_or s.now (o + (center_place + 1)) nan) ∷ [])) out.new result }
{
    if choice == 0 {
        return put_two(&mut *out, at, b"center", s, o, CENTER_RE);
    }
    put_one(&mut *out, at, b"center_angle", s, o, CENTER_RE)
}
