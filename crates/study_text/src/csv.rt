// A line of the table as a record of comma-separated values.
ghost use Rattle.std.specs.Prelude.{◌≡◌};
ghost use Rattle.texts.specs.Sink.{Appended, Wrote};
ghost use Rattle.study_text.specs.Words.{bound_of};
ghost use Rattle.study_text.specs.Csv.{field, unit_of, at_text, csv_names, csv_id, csv_number, csv_numbers, csv_rule, csv_values, csv_text};

use crate::number::{put_millionths, put_spelled};
use crate::rules::{Rule, rule_of};
use crate::words::{Bound, bound_of, put_definition, put_rule_number};
use catalogue::text::{axis_of, put_id};
use floats::bits::to_bits;
use rows::joint_velocity_constraint::WritebackId;
use texts::hex::hex_word;
use texts::sink::{has_room, length_to, put_byte, put_text};

fn put_field(out: &mut [u8], at: usize, text: &[u8]) -> usize
    ensures { Appended out.old at (field text.now) out.new result }
{
    let end = put_text(out, at, text);
    put_byte(out, end, b',')
}

pub(crate) fn put_csv_names(
    out: &mut [u8],
    at: usize,
    joint: &[u8],
    body1: &[u8],
    body2: &[u8],
) -> usize
    ensures { Appended out.old at (csv_names joint.now body1.now body2.now) out.new result }
{
    let a = put_field(out, at, joint);
    let b = put_field(out, a, body1);
    put_field(out, b, body2)
}

fn put_unit(out: &mut [u8], at: usize, axis: usize) -> usize
    ensures { Appended out.old at (field (unit_of axis)) out.new result }
{
    if axis == 2 {
        put_text(out, at, b"N*m*s,")
    } else {
        put_text(out, at, b"N*s,")
    }
}

fn put_csv_id(out: &mut [u8], at: usize, id: WritebackId) -> usize
    ensures { Appended out.old at (csv_id id) out.new result }
{
    let a = put_id(out, at, id);
    let b = put_byte(out, a, b',');
    put_unit(out, b, axis_of(id))
}

pub(crate) fn put_csv_number(out: &mut [u8], at: usize, x: f32) -> usize
    ensures { Appended out.old at (csv_number x) out.new result }
{
    let a = put_millionths(out, at, x);
    let b = put_byte(out, a, b',');
    let c = put_spelled(out, b, x);
    let d = put_byte(out, c, b',');
    put_field(out, d, &hex_word(false, to_bits(x)))
}

pub(crate) fn put_csv_numbers(out: &mut [u8], at: usize, impulse: f32, low: f32, high: f32) -> usize
    ensures { Appended out.old at (csv_numbers impulse low high) out.new result }
{
    let a = put_csv_number(out, at, impulse);
    let b = put_csv_number(out, a, low);
    put_csv_number(out, b, high)
}

#[tactic(auto, unfolding(crate::specs::Csv::field))]
fn bound_field(bound: Option<Bound>) -> &'static [u8]
    ensures { result.now ≡ field (at_text bound) }
{
    match bound {
        Some(Bound::Low) => b"low,",
        Some(Bound::High) => b"high,",
        None => b"no,",
    }
}

fn put_csv_rule(out: &mut [u8], at: usize, bound: Option<Bound>, rule: Rule) -> usize
    ensures { Appended out.old at (csv_rule bound rule) out.new result }
{
    let a = put_text(out, at, bound_field(bound));
    let b = put_rule_number(out, a, rule);
    let c = put_byte(out, b, b',');
    let d = put_definition(out, c, rule);
    put_text(out, d, b"\r\n")
}

fn put_csv_values(
    out: &mut [u8],
    at: usize,
    id: WritebackId,
    rule: Rule,
    impulse: f32,
    low: f32,
    high: f32,
    residual: f32,
) -> usize
    ensures { Appended out.old at (csv_values id rule impulse low high residual) out.new result }
{
    let a = put_csv_id(out, at, id);
    let b = put_csv_numbers(out, a, impulse, low, high);
    let c = put_csv_number(out, b, residual);
    put_csv_rule(out, c, bound_of(impulse, low, high), rule)
}

fn put_csv_row(
    out: &mut [u8],
    joint: &[u8],
    body1: &[u8],
    body2: &[u8],
    id: WritebackId,
    coupled: u32,
    impulse: f32,
    low: f32,
    high: f32,
    residual: f32,
) -> usize
    ensures { Appended out.old 0 (csv_text joint.now body1.now body2.now id coupled impulse low high residual) out.new result }
{
    let a = put_csv_names(out, 0, joint, body1, body2);
    put_csv_values(
        out,
        a,
        id,
        rule_of(id, coupled),
        impulse,
        low,
        high,
        residual,
    )
}

// As `write_row`, with the line as comma-separated values.
pub fn write_csv_row(
    out: &mut [u8],
    joint: &[u8],
    body1: &[u8],
    body2: &[u8],
    id: WritebackId,
    coupled: u32,
    impulse: f32,
    low: f32,
    high: f32,
    residual: f32,
) -> usize
    ensures { Wrote out.old (csv_text joint.now body1.now body2.now id coupled impulse low high residual) out.new result }
{
    let mut none = [0u8; 1];
    let len = put_csv_row(
        &mut none, joint, body1, body2, id, coupled, impulse, low, high, residual,
    );
    if has_room(len, out.len()) {
        put_csv_row(
            out, joint, body1, body2, id, coupled, impulse, low, high, residual,
        )
    } else {
        length_to(len)
    }
}
