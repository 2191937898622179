// The text of the catalogue, written into a lent slice: a line, or all of it. Each function that puts a text in does so from `at` on, as far as there is
// room, and answers where it ends.
ghost use Rattle.std.specs.Prelude.{◌≡◌, ◌<◌};
ghost use Rattle.rows.specs.RowIds.{row_ids};
ghost use Rattle.model.specs.Store.{axis_of};
ghost use Rattle.texts.specs.Sink.{Appended, Wrote};
ghost use Rattle.catalogue.specs.Choices.{choice_of};
ghost use Rattle.catalogue.specs.Text.{axis_digit, kind_text, id_text, ids_text, head_text, line_text, catalogue_text, line_at};

use crate::choices::{CHOICES, choice};
use rows::generic_joint::Masks;
use rows::joint_velocity_constraint::WritebackId;
use rows::row_ids::{row_count, row_ids};
use texts::sink::{has_room, length_to, put_byte, put_text};

// ---- an id

fn axis_digit(axis: usize) -> u8
    ensures { result ≡ axis_digit axis }
{
    match axis {
        0 => b'0',
        1 => b'1',
        _ => b'2',
    }
}

pub fn kind_text(id: WritebackId) -> &'static [u8]
    ensures { result.now ≡ kind_text id }
{
    match id {
        WritebackId::Dof(_) => b"Dof",
        WritebackId::Limit(_) => b"Limit",
        WritebackId::Motor(_) => b"Motor",
    }
}

pub fn axis_of(id: WritebackId) -> usize
    ensures { result ≡ axis_of id }
{
    match id {
        WritebackId::Dof(axis) | WritebackId::Limit(axis) | WritebackId::Motor(axis) => axis,
    }
}

pub fn put_id(out: &mut [u8], at: usize, id: WritebackId) -> usize
    ensures { Appended out.old at (id_text id) out.new result }
{
    let a = put_text(out, at, kind_text(id));
    put_byte(out, a, axis_digit(axis_of(id)))
}

// ---- a line

fn put_ids(out: &mut [u8], at: usize, k: Masks) -> usize
    ensures { Appended out.old at (ids_text (row_ids 2 1 k)) out.new result }
{
    let made = row_ids(k);
    let mut end = at;
    for next in 0..made.len {
        let a = put_byte(out, end, b' ');
        end = put_id(out, a, made.ids[next].id);
    }
    end
}

fn put_head(out: &mut [u8], at: usize, k: Masks, count: usize) -> usize
    requires { (k.locked_axes < 8) × (k.limit_axes < 8) × (k.motor_axes < 8) × (k.coupled_axes < 8) × (count < 8) }
    ensures { Appended out.old at (head_text k count) out.new result }
{
    let head = [
        48 + k.locked_axes as u8,
        b' ',
        48 + k.limit_axes as u8,
        b' ',
        48 + k.motor_axes as u8,
        b' ',
        48 + k.coupled_axes as u8,
        b' ',
        48 + count as u8,
    ];
    put_text(out, at, &head)
}

fn put_line(out: &mut [u8], at: usize, n: u32) -> usize
    requires { n < 4096 }
    ensures { Appended out.old at (line_text (choice_of n)) out.new result }
{
    let k = choice(n);
    let first = put_head(out, at, k, row_count(k));
    let last = put_ids(out, first, k);
    put_byte(out, last, b'\n')
}

// Line n, if there is one.
fn put_line_at(out: &mut [u8], n: u32) -> usize
    ensures { Appended out.old 0 (line_at n) out.new result }
{
    if n < CHOICES { put_line(out, 0, n) } else { 0 }
}

fn put_catalogue(out: &mut [u8]) -> usize
    ensures { Appended out.old 0 catalogue_text out.new result }
{
    let mut end = 0;
    for n in 0..CHOICES {
        end = put_line(out, end, n);
    }
    end
}

// ---- what a caller asks for

// Writes line n, counted from 0, to the front of `out` and answers its length. Where `out` is shorter nothing is written, and the
// length is answered all the same. From 4096 on there is no line: 0 is answered.
pub fn write_line(n: u32, out: &mut [u8]) -> usize
    ensures { Wrote out.old (line_at n) out.new result }
{
    let mut none = [0u8; 1];
    let len = put_line_at(&mut none, n);
    if has_room(len, out.len()) {
        put_line_at(out, n)
    } else {
        length_to(len)
    }
}

// The same with all lines, one after the other.
pub fn write_catalogue(out: &mut [u8]) -> usize
    ensures { Wrote out.old catalogue_text out.new result }
{
    let mut none = [0u8; 1];
    let len = put_catalogue(&mut none);
    if has_room(len, out.len()) {
        put_catalogue(out)
    } else {
        length_to(len)
    }
}
