// A joint's reaction, a line under the table's rows: what its rows together gave its two bodies.
ghost use Rattle.std.specs.Prelude.{◌≡◌};
ghost use Rattle.texts.specs.Sink.{Appended, Wrote};
ghost use Rattle.study_text.specs.Reaction.{forces_text, turned_text, reaction_text, reaction_heading, reaction_notes};

use crate::number::put_number_column;
use crate::row::{put_names, put_numbers};
use crate::words::motors_digit;
use rows::reaction::Reaction;
use texts::sink::{has_room, length_to, put_byte, put_text, write_text};

fn put_forces(out: &mut [u8], at: usize, reaction: Reaction) -> usize
    ensures { Appended out.old at (forces_text reaction) out.new result }
{
    let force = reaction.impulses.body1.linear;
    let along = reaction.along;
    let a = put_numbers(out, at, force.x, force.y, along.x);
    put_numbers(
        out,
        a,
        along.y,
        reaction.moment,
        reaction.impulses.body1.angular,
    )
}

fn put_turned(out: &mut [u8], at: usize, angular: f32, motors: Option<u8>) -> usize
    ensures { Appended out.old at (turned_text angular motors) out.new result }
{
    let a = put_number_column(out, at, angular);
    let b = put_byte(out, a, motors_digit(motors));
    let c = put_text(out, b, b"      ");
    put_text(out, c, b"reactionOf\n")
}

fn put_reaction(
    out: &mut [u8],
    joint: &[u8],
    body1: &[u8],
    body2: &[u8],
    reaction: Reaction,
    motors: Option<u8>,
) -> usize
    ensures { Appended out.old 0 (reaction_text joint.now body1.now body2.now reaction motors) out.new result }
{
    let a = put_names(out, 0, joint, body1, body2);
    let b = put_forces(out, a, reaction);
    put_turned(out, b, reaction.impulses.body2.angular, motors)
}

// Writes the line of a joint's reaction to the front of `out` and answers its length: the joint and its bodies by name, the numbers, how many of its motors
// the last round found low or high if a round was swept, the definition. Where `out` is shorter nothing is written, and the length is answered all the same.
pub fn write_reaction(
    out: &mut [u8],
    joint: &[u8],
    body1: &[u8],
    body2: &[u8],
    reaction: Reaction,
    motors: Option<u8>,
) -> usize
    ensures { Wrote out.old (reaction_text joint.now body1.now body2.now reaction motors) out.new result }
{
    let mut none = [0u8; 1];
    let len = put_reaction(&mut none, joint, body1, body2, reaction, motors);
    if has_room(len, out.len()) {
        put_reaction(out, joint, body1, body2, reaction, motors)
    } else {
        length_to(len)
    }
}

// The heading of these lines.
pub fn write_reaction_heading(out: &mut [u8]) -> usize
    ensures { Wrote out.old reaction_heading out.new result }
{
    write_text(
        out,
        b"\njoint       body 1    body 2            force x         force y         along x         along y          moment          turn 1          turn 2 motors definition\n",
    )
}

// What their numbers are, in words.
pub fn write_reaction_notes(out: &mut [u8]) -> usize
    ensures { Wrote out.old reaction_notes out.new result }
{
    write_text(
        out,
        b"\nA joint's reaction is what its rows together gave body 1, and body 2 the opposite, in millionths: force x, y the linear impulse in the world [N s]; along x, y the same along the axes of frame 1;\nmoment the angular impulse at the place of frame 2 [N m s]; turn 1, turn 2 what turned each body about its own centre of mass [N m s]; motors how many\nof its motors the last round that was swept found low or high (sweepCounts), so wanting more than their maximum force, - where none was swept since the build. A row's impulse multiplies the row as it was made\northogonal to the locks before it (finalizeOf). So a stop's or a motor's is its own force or couple, but a lock's takes in what later rows share with it: the reaction is the line above.\n",
    )
}
