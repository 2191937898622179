// A body's velocity, as a velocity read prints it.
ghost use Rattle.std.specs.Prelude.{◌≡◌};
ghost use Rattle.texts.specs.Sink.{Appended, Wrote};
ghost use Rattle.study_text.specs.Velocity.{moves_text, velocity_text};

use crate::number::put_millionths;
use texts::sink::{has_room, length_to, put_text};

fn put_moves(out: &mut [u8], at: usize, x: f32, y: f32) -> usize
    ensures { Appended out.old at (moves_text x y) out.new result }
{
    let a = put_text(out, at, b" moves ");
    let b = put_millionths(out, a, x);
    let c = put_text(out, b, b" ");
    let d = put_millionths(out, c, y);
    put_text(out, d, b" millionths of m/s, turns ")
}

fn put_velocity(out: &mut [u8], name: &[u8], x: f32, y: f32, angular: f32) -> usize
    ensures { Appended out.old 0 (velocity_text name.now x y angular) out.new result }
{
    let a = put_text(out, 0, name);
    let b = put_moves(out, a, x, y);
    let c = put_millionths(out, b, angular);
    put_text(out, c, b" millionths of rad/s\n")
}

// Writes the line to the front of `out` and answers its length. Where `out` is shorter nothing is written, and the length is answered all
// the same.
pub fn write_velocity(out: &mut [u8], name: &[u8], x: f32, y: f32, angular: f32) -> usize
    ensures { Wrote out.old (velocity_text name.now x y angular) out.new result }
{
    let mut none = [0u8; 1];
    let len = put_velocity(&mut none, name, x, y, angular);
    if has_room(len, out.len()) {
        put_velocity(out, name, x, y, angular)
    } else {
        length_to(len)
    }
}
