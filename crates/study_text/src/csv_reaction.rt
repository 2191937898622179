// A joint's reaction as a record of comma-separated values.
ghost use Rattle.std.specs.Prelude.{◌≡◌};
ghost use Rattle.texts.specs.Sink.{Appended, Wrote};
ghost use Rattle.study_text.specs.CsvReaction.{csv_forces, csv_turned, csv_reaction_text, csv_reaction_heading};

use crate::csv::{put_csv_names, put_csv_number, put_csv_numbers};
use crate::words::motors_digit;
use rows::reaction::Reaction;
use texts::sink::{has_room, length_to, put_byte, put_text, write_text};

fn put_csv_forces(out: &mut [u8], at: usize, reaction: Reaction) -> usize
    ensures { Appended out.old at (csv_forces reaction) out.new result }
{
    let force = reaction.impulses.body1.linear;
    let along = reaction.along;
    let a = put_csv_numbers(out, at, force.x, force.y, along.x);
    put_csv_numbers(
        out,
        a,
        along.y,
        reaction.moment,
        reaction.impulses.body1.angular,
    )
}

fn put_csv_turned(out: &mut [u8], at: usize, angular: f32, motors: Option<u8>) -> usize
    ensures { Appended out.old at (csv_turned angular motors) out.new result }
{
    let a = put_csv_number(out, at, angular);
    let b = put_byte(out, a, motors_digit(motors));
    let c = put_byte(out, b, b',');
    put_text(out, c, b"reactionOf\r\n")
}

fn put_csv_reaction(
    out: &mut [u8],
    joint: &[u8],
    body1: &[u8],
    body2: &[u8],
    reaction: Reaction,
    motors: Option<u8>,
) -> usize
    ensures { Appended out.old 0 (csv_reaction_text joint.now body1.now body2.now reaction motors) out.new result }
{
    let a = put_csv_names(out, 0, joint, body1, body2);
    let b = put_csv_forces(out, a, reaction);
    put_csv_turned(out, b, reaction.impulses.body2.angular, motors)
}

// As `write_reaction`, with the line as comma-separated values.
pub fn write_csv_reaction(
    out: &mut [u8],
    joint: &[u8],
    body1: &[u8],
    body2: &[u8],
    reaction: Reaction,
    motors: Option<u8>,
) -> usize
    ensures { Wrote out.old (csv_reaction_text joint.now body1.now body2.now reaction motors) out.new result }
{
    let mut none = [0u8; 1];
    let len = put_csv_reaction(&mut none, joint, body1, body2, reaction, motors);
    if has_room(len, out.len()) {
        put_csv_reaction(out, joint, body1, body2, reaction, motors)
    } else {
        length_to(len)
    }
}

// An empty line and the heading of these records.
pub fn write_csv_reaction_heading(out: &mut [u8]) -> usize
    ensures { Wrote out.old csv_reaction_heading out.new result }
{
    write_text(
        out,
        b"\r\njoint,body1,body2,force x on body 1 [1e-6 N*s],force x on body 1 [N*s],force x on body 1 [f32 bits],force y on body 1 [1e-6 N*s],force y on body 1 [N*s],force y on body 1 [f32 bits],along x of frame 1 on body 1 [1e-6 N*s],along x of frame 1 on body 1 [N*s],along x of frame 1 on body 1 [f32 bits],along y of frame 1 on body 1 [1e-6 N*s],along y of frame 1 on body 1 [N*s],along y of frame 1 on body 1 [f32 bits],moment at frame 2 on body 1 [1e-6 N*m*s],moment at frame 2 on body 1 [N*m*s],moment at frame 2 on body 1 [f32 bits],turn of body 1 [1e-6 N*m*s],turn of body 1 [N*m*s],turn of body 1 [f32 bits],turn of body 2 [1e-6 N*m*s],turn of body 2 [N*m*s],turn of body 2 [f32 bits],motors low or high in the last round,definition\r\n",
    )
}
