// Document 01's calls on a spatial model. Each takes whatever it is lent, of any length and contents; a refused call changes nothing.
ghost use Rattle.std.specs.Prelude.{◌≡◌};
ghost use Rattle.spatial_model.specs.Model.{model_of};
ghost use Rattle.multibody.specs.Counts.{joint_count};
ghost use Rattle.multibody.specs.Calls.{outcome, run};
ghost use Rattle.multibody.specs.Calls.Call.{load, place, build, warm_start, sweep, remove_bias, write_back, read_rows, read_velocity};
ghost use Rattle.multibody.specs.JointRows.{row_masks_at};
ghost use Rattle.spatial_model.specs.Spatial.{space, spatial};
ghost use Rattle.multibody.specs.Answers.{WithoutRows, Filled, plain_answer, load_header, build_answer, build_header, velocity_answer, sweep_answer};
ghost use Rattle.spatial_model.specs.Answers.{rows_answer, RowsFilled};

use crate::joint_rows::{ids_at, rows_from};
use crate::refusals::{finite_pose, model_refusal, storage_refusal};
use crate::space::Space;
use crate::store::{put_pose, vel_at};
use multibody::all_joints::{build_all, remove_bias_all, sweep_all, warmstart_all, write_back_all};
use multibody::counts::{body_count, joint_count, rows_before};
use multibody::header::Header;
use multibody::joint_rows::{count_at, reads_rows};
use multibody::refusal::Refusal;
use multibody::refusals::finite_warm;
use spatial_floats::pose::Pose;
use spatial_rows::joint_velocity_constraint::{Rows, SolverVel};
use spatial_rows::row_ids::RowIds;

// Rule 9: a sweep has at most so many rounds.
pub const MOST_ROUNDS: u32 = 64;

// Checks the model, and marks it not built.
pub fn load(
    header: Header,
    bodies: &[f32],
    words: &[u32],
    numbers: &[f32],
    rows: &[f32],
) -> Result<Header, Refusal>
    ensures { outcome (plain_answer result) (model_of (load_header header result) bodies.now words.now numbers.now) rows.now ≡ run spatial load (model_of header bodies.now words.now numbers.now) rows.now }
{
    storage_refusal(header, bodies, words, numbers, rows, true)?;
    Ok(Header {
        built: false,
        ..header
    })
}

// Gives one body a new pose, and keeps the mark.
pub fn place(
    header: Header,
    bodies: &mut [f32],
    words: &[u32],
    numbers: &[f32],
    body: u32,
    pose: Pose,
) -> Result<(), Refusal>
    ensures { WithoutRows (outcome (plain_answer result) (model_of header bodies.new words.now numbers.now)) (run spatial (place body pose) (model_of header bodies.old words.now numbers.now)) }
{
    model_refusal(header, bodies, words, numbers, finite_pose(pose))?;
    if (body as usize) >= body_count::<Space>(bodies) {
        return Err(Refusal::NoSuchIndex);
    }
    put_pose(bodies, body, pose);
    Ok(())
}

// Makes all rows, and marks the model built: its header, and the number of the rows.
pub fn build(
    header: Header,
    bodies: &[f32],
    words: &[u32],
    numbers: &[f32],
    rows: &mut [f32],
    warmstart: Option<f32>,
    substep_id: u32,
) -> Result<(Header, usize), Refusal>
    ensures { outcome (build_answer result) (model_of (build_header header result) bodies.now words.now numbers.now) rows.new ≡ run spatial (build warmstart substep_id) (model_of header bodies.now words.now numbers.now) rows.old }
{
    storage_refusal(header, bodies, words, numbers, rows, finite_warm(warmstart))?;
    if !header.built && reads_rows(warmstart, substep_id) {
        return Err(Refusal::NotBuilt);
    }
    let total = build_all::<Space>(header, bodies, words, numbers, rows, warmstart, substep_id);
    let built = Header {
        built: true,
        ..header
    };
    Ok((built, total))
}

// The warm start of every row.
pub fn warm_start(
    header: Header,
    bodies: &mut [f32],
    words: &[u32],
    numbers: &[f32],
    rows: &[f32],
) -> Result<(), Refusal>
    ensures { outcome (plain_answer result) (model_of header bodies.new words.now numbers.now) rows.now ≡ run spatial warm_start (model_of header bodies.old words.now numbers.now) rows.now }
{
    storage_refusal(header, bodies, words, numbers, rows, true)?;
    if !header.built {
        return Err(Refusal::NotBuilt);
    }
    warmstart_all::<Space>(header, bodies, words, numbers, rows);
    Ok(())
}

// n rounds over all joints, ascending, and their rows in order. It tells of each joint how many of its motor rows the last round found low or high; past the joints are zeros.
pub fn sweep(
    header: Header,
    bodies: &mut [f32],
    words: &[u32],
    numbers: &[f32],
    rows: &mut [f32],
    n: u32,
) -> Result<[u8; 128], Refusal>
    ensures rows_after { outcome (sweep_answer (joint_count space words.now numbers.now) result) (model_of header bodies.new words.now numbers.now) rows.new ≡ run spatial (sweep n) (model_of header bodies.old words.now numbers.now) rows.old }
    ensures filled { Filled (joint_count space words.now numbers.now) result }
{
    storage_refusal(header, bodies, words, numbers, rows, true)?;
    if n > MOST_ROUNDS {
        return Err(Refusal::TooManyRounds);
    }
    if !header.built {
        return Err(Refusal::NotBuilt);
    }
    let mut counts = [0u8; 128];
    sweep_all::<Space>(header, bodies, words, numbers, rows, &mut counts, n);
    Ok(counts)
}

// Takes the bias off every row.
pub fn remove_bias(
    header: Header,
    bodies: &[f32],
    words: &[u32],
    numbers: &[f32],
    rows: &mut [f32],
) -> Result<(), Refusal>
    ensures { outcome (plain_answer result) (model_of header bodies.now words.now numbers.now) rows.new ≡ run spatial remove_bias (model_of header bodies.now words.now numbers.now) rows.old }
{
    storage_refusal(header, bodies, words, numbers, rows, true)?;
    if !header.built {
        return Err(Refusal::NotBuilt);
    }
    remove_bias_all::<Space>(header, bodies, words, numbers, rows);
    Ok(())
}

// Stores every row's impulse by its id.
pub fn write_back(
    header: Header,
    bodies: &[f32],
    words: &[u32],
    numbers: &mut [f32],
    rows: &[f32],
) -> Result<(), Refusal>
    ensures { outcome (plain_answer result) (model_of header bodies.now words.now numbers.new) rows.now ≡ run spatial write_back (model_of header bodies.now words.now numbers.old) rows.now }
{
    storage_refusal(header, bodies, words, numbers, rows, true)?;
    if !header.built {
        return Err(Refusal::NotBuilt);
    }
    write_back_all::<Space>(header, bodies, words, numbers, rows);
    Ok(())
}

// One joint's ids and rows; past their counts the arrays are filled up with blank ones.
pub fn read_rows(
    header: Header,
    bodies: &[f32],
    words: &[u32],
    numbers: &[f32],
    rows: &[f32],
    joint: u32,
) -> Result<(RowIds, Rows), Refusal>
    ensures rows_value { outcome (rows_answer result) (model_of header bodies.now words.now numbers.now) rows.now ≡ run spatial (read_rows joint) (model_of header bodies.now words.now numbers.now) rows.now }
    ensures filled { RowsFilled (row_masks_at space words.now joint) result }
{
    storage_refusal(header, bodies, words, numbers, rows, true)?;
    if !header.built {
        return Err(Refusal::NotBuilt);
    }
    let j = joint as usize;
    if j >= joint_count::<Space>(words, numbers) {
        return Err(Refusal::NoSuchIndex);
    }
    let read = rows_from(
        rows,
        rows_before::<Space>(words, j),
        count_at::<Space>(words, j),
    );
    Ok((ids_at(words, j), read))
}

// One body's velocity.
pub fn read_velocity(
    header: Header,
    bodies: &[f32],
    words: &[u32],
    numbers: &[f32],
    body: u32,
) -> Result<SolverVel, Refusal>
    ensures { WithoutRows (outcome (velocity_answer space result) (model_of header bodies.now words.now numbers.now)) (run spatial (read_velocity body) (model_of header bodies.now words.now numbers.now)) }
{
    model_refusal(header, bodies, words, numbers, true)?;
    if (body as usize) >= body_count::<Space>(bodies) {
        Err(Refusal::NoSuchIndex)
    } else {
        Ok(vel_at(bodies, body))
    }
}
