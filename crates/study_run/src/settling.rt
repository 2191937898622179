// Sweeps until no row's residual is above a tolerance in size.
ghost use Rattle.std.specs.Prelude.{◌≡◌, ◌≤◌, length};
ghost use Rattle.multibody.specs.Calls.Call.{sweep};
ghost use Rattle.rows.specs.Reaction.{rows_in};
ghost use Rattle.model.specs.Model.{model_of};
ghost use Rattle.frames.specs.Studies.{plain};
ghost use Rattle.study_run.specs.Study.{study_of, ran_of};
ghost use Rattle.study_run.specs.ModelCalls.{run_model_call};
ghost use Rattle.study_run.specs.Settled.{size_of, row_settled, rows_settled, joint_settled, joints_settled, rounds, rounds_from, settle_of};

use crate::motors::{Motors, found, kept};
use crate::runs::{Done, Reply, run_sweep};
use model::calls::{read_rows, sweep};
use model::reactions::residual_at;
use multibody::header::Header;
use rows::joint_velocity_constraint::{JointConstraint, Rows};

// Not `abs`: of -0 the definition has -0.
fn size(x: f32) -> f32
    ensures { result ≡ size_of x }
{
    if x < 0.0 { -x } else { x }
}

fn row_settled(
    bodies: &[f32],
    words: &[u32],
    row: JointConstraint,
    joint: u32,
    tolerance: f32,
) -> bool
    ensures { result ≡ row_settled tolerance bodies.now words.now joint row }
{
    size(residual_at(bodies, words, row, joint as usize)) <= tolerance
}

// How many rows an array holds.
fn held(made: Rows) -> usize
    ensures value { result ≡ length (rows_in made) }
    ensures upper_bound { result ≤ 6 }
{
    made.len.min(6)
}

// The rows of one joint.
fn rows_settled(bodies: &[f32], words: &[u32], made: Rows, joint: u32, tolerance: f32) -> bool
    ensures { result ≡ rows_settled tolerance bodies.now words.now joint (rows_in made) }
{
    let n = held(made);
    for k in 0..n {
        if !row_settled(bodies, words, made.rows[k], joint, tolerance) {
            return false;
        }
    }
    true
}

fn joint_settled(
    header: Header,
    bodies: &[f32],
    words: &[u32],
    numbers: &[f32],
    rows: &[f32],
    joint: u32,
    tolerance: f32,
) -> bool
    ensures { result ≡ joint_settled tolerance (model_of header bodies.now words.now numbers.now) rows.now joint }
{
    match read_rows(header, bodies, words, numbers, rows, joint) {
        Ok((_, made)) => rows_settled(bodies, words, made, joint, tolerance),
        Err(_) => true,
    }
}

fn joints_settled(
    header: Header,
    bodies: &[f32],
    words: &[u32],
    numbers: &[f32],
    rows: &[f32],
    joints: u32,
    tolerance: f32,
) -> bool
    ensures { result ≡ joints_settled tolerance (model_of header bodies.now words.now numbers.now) rows.now 0 joints }
{
    for j in 0..joints {
        if !joint_settled(header, bodies, words, numbers, rows, j, tolerance) {
            return false;
        }
    }
    true
}

// How many rounds there were, and what the last of them found.
#[derive(Clone, Copy)]
pub struct Swept {
    pub many: u32,
    pub motors: Motors,
}

fn one_round(
    header: Header,
    bodies: &mut [f32],
    words: &[u32],
    numbers: &[f32],
    rows: &mut [f32],
    motors: Motors,
) -> Motors
    ensures { study_of header result bodies.new words.now numbers.now rows.new ≡ (run_model_call (plain (sweep 1)) (study_of header motors bodies.old words.now numbers.now rows.old)).left }
{
    kept(
        1,
        found(sweep(header, bodies, words, numbers, rows, 1)),
        motors,
    )
}

// So many rounds at most, each where the rows are not settled.
fn run_rounds(
    header: Header,
    bodies: &mut [f32],
    words: &[u32],
    numbers: &[f32],
    rows: &mut [f32],
    motors: Motors,
    joints: u32,
    tolerance: f32,
    most: u32,
) -> Swept
    ensures { rounds result.many (study_of header result.motors bodies.new words.now numbers.now rows.new) ≡ rounds_from joints tolerance most 0 (study_of header motors bodies.old words.now numbers.now rows.old) }
{
    let mut found = motors;
    for many in 0..most {
        if joints_settled(header, bodies, words, numbers, rows, joints, tolerance) {
            return Swept {
                many,
                motors: found,
            };
        }
        found = one_round(header, bodies, words, numbers, rows, found);
    }
    Swept {
        many: most,
        motors: found,
    }
}

pub fn run_settle(
    header: Header,
    bodies: &mut [f32],
    words: &[u32],
    numbers: &[f32],
    rows: &mut [f32],
    motors: Motors,
    joints: u32,
    tolerance: f32,
    most: u32,
) -> Done
    ensures { ran_of result bodies.new words.now numbers.now rows.new ≡ settle_of joints tolerance most (study_of header motors bodies.old words.now numbers.now rows.old) }
{
    let first = run_sweep(header, bodies, words, numbers, rows, motors, 0);
    if first.reply.is_err() {
        return first;
    }
    let header = first.header;
    let swept = run_rounds(
        header,
        bodies,
        words,
        numbers,
        rows,
        first.motors,
        joints,
        tolerance,
        most,
    );
    let settled = joints_settled(header, bodies, words, numbers, rows, joints, tolerance);
    Done {
        reply: Ok(Reply::Settled(settled, swept.many)),
        header,
        motors: swept.motors,
    }
}
