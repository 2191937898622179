// How far from settled a table's rows are, as the line below it says.
ghost use Rattle.std.specs.Prelude.{◌≡◌};
ghost use Rattle.texts.specs.Sink.{Appended, Wrote};
ghost use Rattle.study_text.specs.Residual.{change_text, residual_text};

use crate::number::put_spelled;
use catalogue::text::put_id;
use rows::joint_velocity_constraint::WritebackId;
use texts::sink::{has_room, length_to, put_text};

fn put_change(out: &mut [u8], at: usize, id: WritebackId, x: f32) -> usize
    ensures { Appended out.old at (change_text id x) out.new result }
{
    let a = put_text(out, at, b" ");
    let b = put_id(out, a, id);
    let c = put_text(out, b, b" has the largest residual: ");
    let d = put_spelled(out, c, x);
    put_text(out, d, b"\n")
}

fn put_residual(out: &mut [u8], joint: &[u8], id: WritebackId, x: f32) -> usize
    ensures { Appended out.old 0 (residual_text joint.now id x) out.new result }
{
    let a = put_text(out, 0, joint);
    put_change(out, a, id, x)
}

// Writes the line of the row whose impulse one more step would change most to the front of `out` and answers its length: the name of its joint, its id, and
// the change. Where `out` is shorter nothing is written, and the length is answered all the same.
pub fn write_residual(out: &mut [u8], joint: &[u8], id: WritebackId, x: f32) -> usize
    ensures { Wrote out.old (residual_text joint.now id x) out.new result }
{
    let mut none = [0u8; 1];
    let len = put_residual(&mut none, joint, id, x);
    if has_room(len, out.len()) {
        put_residual(out, joint, id, x)
    } else {
        length_to(len)
    }
}
