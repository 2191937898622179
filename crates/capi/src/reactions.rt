// A joint's reaction and a row's residual for C, Rust and Python callers, over the rows that a row read stored. No call on a model: nothing is refused. A joint, a body or a row
// that is not there counts as one of zeros, the world, and a row of zeros.
ghost use Rattle.std.specs.Prelude.{◌≡◌, ◌≤◌, length};
ghost use Rattle.model.specs.SingleRecords.{row_if_there};
ghost use Rattle.model.specs.Reactions.{reaction_at, residual_at};
ghost use Rattle.capi.specs.ReactionExports.{six_rows, first_rows, reaction_number, put_reaction, reaction_out};

use crate::calls::SHORT_SLICE;
use crate::stored::put_three;
use model::reactions::{reaction_at, residual_at};
use model::single_records::read_row;
use rows::joint_velocity_constraint::{JointConstraint, Rows};
use rows::reaction::Reaction;

// What a reaction's slice has room for: what body 1 and body 2 got (x, y, angular), along the joint's axes (x, y), the moment.
pub const REACTION_NUMBERS: usize = 9;

// The first six rows of a slice.
fn six_rows(rows: &[f32]) -> [JointConstraint; 6]
    ensures { result ≡ six_rows rows.now }
{
    let a = read_row(rows, 0);
    let b = read_row(rows, 1);
    let c = read_row(rows, 2);
    let d = read_row(rows, 3);
    let e = read_row(rows, 4);
    let f = read_row(rows, 5);
    [a, b, c, d, e, f]
}

fn put_reaction(out: &mut [f32], r: Reaction)
    requires { 9 ≤ length out.old }
    ensures { out.new ≡ put_reaction out.old r }
{
    let got1 = r.impulses.body1;
    let got2 = r.impulses.body2;
    let linear1 = got1.linear;
    let linear2 = got2.linear;
    let along = r.along;
    put_three(out, 0, linear1.x, linear1.y, got1.angular);
    put_three(out, 3, linear2.x, linear2.y, got2.angular);
    put_three(out, 6, along.x, along.y, r.moment);
}

// The reaction of a joint that has the first n rows of a slice.
#[unsafe(no_mangle)]
pub extern "C" fn katydidzinc_reaction(
    bodies: &[f32],
    words: &[u32],
    numbers: &[f32],
    joint: u32,
    rows: &[f32],
    n: u32,
    out: &mut [f32],
) -> u64
    ensures value { result ≡ reaction_number out.old }
    ensures out_after { out.new ≡ reaction_out out.old (reaction_at bodies.now words.now numbers.now (first_rows rows.now n) joint) }
{
    if out.len() < REACTION_NUMBERS {
        return SHORT_SLICE;
    }
    let made = Rows {
        rows: six_rows(rows),
        len: n as usize,
    };
    put_reaction(
        out,
        reaction_at(bodies, words, numbers, made, joint as usize),
    );
    0
}

// The residual of row k of a slice, a row of that joint.
#[unsafe(no_mangle)]
pub extern "C" fn katydidzinc_residual(
    bodies: &[f32],
    words: &[u32],
    joint: u32,
    rows: &[f32],
    k: u32,
) -> f32
    ensures { result ≡ residual_at bodies.now words.now (row_if_there rows.now k) joint }
{
    let row = read_row(rows, k as usize);
    residual_at(bodies, words, row, joint as usize)
}
