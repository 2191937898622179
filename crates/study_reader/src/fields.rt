// The words that start a line inside `settings`, a body or a joint, and the numbers they give.
ghost use Rattle.std.specs.Prelude.{◌≡◌};
ghost use Rattle.study_reader.specs.Words.{bytes_of};
ghost use Rattle.study_reader.specs.Keywords.{field, field_of};
ghost use Rattle.study_reader.specs.Tables.{end_in, field_after};

use crate::tables::{end_in, number_after};
use crate::words::{Word, next_word};

// What a line belongs to: numbers, as the table of fields has them.
pub const NO_ITEM: u32 = 0;

pub const SETTINGS_ITEM: u32 = 1;

pub const BODY_ITEM: u32 = 2;

pub const JOINT_ITEM: u32 = 3;

pub const CALLS: u32 = 4;

// `many` numbers from a place of the item on; where `stride` is not 0 an axis comes first, and its number times the stride is added.
#[derive(Clone, Copy)]
pub struct Field {
    pub kind: u32,
    pub place: u32,
    pub many: u32,
    pub stride: u32,
}

// The four numbers after a place of a table.
fn field_after(table: &[u8], at: usize) -> Field
    ensures { result ≡ field_after table.now at }
{
    let kind = next_word(table, at);
    let place = next_word(table, kind.end);
    let many = next_word(table, place.end);
    Field {
        kind: number_after(table, 0, at),
        place: number_after(table, 0, kind.end),
        many: number_after(table, 0, place.end),
        stride: number_after(table, 0, many.end),
    }
}

fn field_in(table: &[u8], text: &[u8], w: Word) -> Field
    ensures { result ≡ field_after table.now (end_in table.now (bytes_of text.now w)) }
{
    field_after(table, end_in(table, text, w))
}

// The field that a word names, by its item, place, many and stride; of no item where it names none.
pub fn field_of(text: &[u8], w: Word) -> Field
    ensures { result ≡ field_of text.now w }
{
    field_in(
        b"\
        dt 1 0 1 0\n\
        length_unit 1 1 1 0\n\
        normalized_max_corrective_velocity 1 2 1 0\n\
        rotation 2 0 2 0\n\
        position 2 2 2 0\n\
        inverse_inertia 2 4 1 0\n\
        inverse_masses 2 5 2 0\n\
        velocity 2 7 2 0\n\
        angular_velocity 2 9 1 0\n\
        frame1_rotation 3 0 2 0\n\
        frame1 3 2 2 0\n\
        frame2_rotation 3 4 2 0\n\
        frame2 3 6 2 0\n\
        limits 3 8 2 3\n\
        limit_impulse 3 10 1 3\n\
        target_velocity 3 17 1 6\n\
        target_position 3 18 1 6\n\
        stiffness 3 19 1 6\n\
        damping 3 20 1 6\n\
        max_force 3 21 1 6\n\
        motor_impulse 3 22 1 6\n\
        natural_frequency 3 35 1 0\n\
        damping_ratio 3 36 1 0\n\
        impulse 3 37 1 1\n\
        ",
        text,
        w,
    )
}
