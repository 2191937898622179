// A line of the table as text: what the program prints. Each function that puts a text in does so from `at` on and answers where it ends.
ghost use Rattle.std.specs.Prelude.{◌≡◌, ◌+◌, ◌-◌, ◌≤◌, length};
ghost use Rattle.texts.specs.Sink.{Appended, Wrote};
ghost use Rattle.study_text.specs.Words.{bound_of};
ghost use Rattle.study_text.specs.Row.{column, names_text, numbers_text, values_text, rule_text, row_text};

use crate::number::{put_number_column, put_right_spelled};
use crate::rules::{Rule, rule_of};
use crate::words::{bound_of, put_bound, put_definition, put_id_column, put_rule_number};
use rows::joint_velocity_constraint::WritebackId;
use texts::sink::{has_room, length_to, put_blanks, put_byte, put_text};

// The blanks that fill a column up, and one more.
fn blanks_after(len: usize, width: usize) -> usize
    requires { width ≤ 11 }
    ensures { result ≡ width - len + 1 }
{
    width.saturating_sub(len) + 1
}

fn put_column(out: &mut [u8], at: usize, text: &[u8], width: usize) -> usize
    requires { width ≤ 11 }
    ensures { Appended out.old at (column width text.now) out.new result }
{
    let end = put_text(out, at, text);
    put_blanks(out, end, blanks_after(text.len(), width))
}

pub(crate) fn put_names(
    out: &mut [u8],
    at: usize,
    joint: &[u8],
    body1: &[u8],
    body2: &[u8],
) -> usize
    ensures { Appended out.old at (names_text joint.now body1.now body2.now) out.new result }
{
    let a = put_column(out, at, joint, 11);
    let b = put_column(out, a, body1, 9);
    put_column(out, b, body2, 9)
}

pub(crate) fn put_numbers(out: &mut [u8], at: usize, impulse: f32, low: f32, high: f32) -> usize
    ensures { Appended out.old at (numbers_text impulse low high) out.new result }
{
    let a = put_number_column(out, at, impulse);
    let b = put_number_column(out, a, low);
    put_number_column(out, b, high)
}

fn put_values(
    out: &mut [u8],
    at: usize,
    id: WritebackId,
    impulse: f32,
    low: f32,
    high: f32,
    residual: f32,
) -> usize
    ensures { Appended out.old at (values_text id impulse low high residual) out.new result }
{
    let a = put_id_column(out, at, id);
    let b = put_numbers(out, a, impulse, low, high);
    let c = put_right_spelled(out, b, residual);
    put_bound(out, c, bound_of(impulse, low, high))
}

fn put_rule(out: &mut [u8], at: usize, rule: Rule) -> usize
    ensures { Appended out.old at (rule_text rule) out.new result }
{
    let a = put_rule_number(out, at, rule);
    let b = put_byte(out, a, b' ');
    let c = put_definition(out, b, rule);
    put_byte(out, c, b'\n')
}

fn put_row(
    out: &mut [u8],
    joint: &[u8],
    body1: &[u8],
    body2: &[u8],
    id: WritebackId,
    coupled: u32,
    impulse: f32,
    low: f32,
    high: f32,
    residual: f32,
) -> usize
    ensures { Appended out.old 0 (row_text joint.now body1.now body2.now id coupled impulse low high residual) out.new result }
{
    let a = put_names(out, 0, joint, body1, body2);
    let b = put_values(out, a, id, impulse, low, high, residual);
    put_rule(out, b, rule_of(id, coupled))
}

// The names are three texts of the caller's, each its own slice.
// Writes the line of a row to the front of `out` and answers its length: the row's joint and bodies by name, its id and the joint's coupled
// axes, its impulse, bounds and residual. Where `out` is shorter nothing is written, and the length is answered all the same.
pub fn write_row(
    out: &mut [u8],
    joint: &[u8],
    body1: &[u8],
    body2: &[u8],
    id: WritebackId,
    coupled: u32,
    impulse: f32,
    low: f32,
    high: f32,
    residual: f32,
) -> usize
    ensures { Wrote out.old (row_text joint.now body1.now body2.now id coupled impulse low high residual) out.new result }
{
    let mut none = [0u8; 1];
    let len = put_row(
        &mut none, joint, body1, body2, id, coupled, impulse, low, high, residual,
    );
    if has_room(len, out.len()) {
        put_row(
            out, joint, body1, body2, id, coupled, impulse, low, high, residual,
        )
    } else {
        length_to(len)
    }
}
