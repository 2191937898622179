// Document 01's calls on a model, and the one that reads a motor table. Each takes whatever it is lent, of any length and contents; a refused call changes nothing.
ghost use Rattle.std.specs.Prelude.{◌≡◌, true};
ghost use Rattle.model.specs.Model.{model_of};
ghost use Rattle.multibody.specs.Counts.{joint_count};
ghost use Rattle.multibody.specs.Rules.{refusal};
ghost use Rattle.multibody.specs.Refusals.{finite_warm};
ghost use Rattle.multibody.specs.Calls.{outcome, run, handed_rules};
ghost use Rattle.multibody.specs.Calls.Change.{none};
ghost use Rattle.multibody.specs.Calls.Call.{load, place, build, warm_start, sweep, remove_bias, write_back, read_rows, read_velocity, set_masks, further};
ghost use Rattle.multibody.specs.JointRows.{row_masks_at};
ghost use Rattle.model.specs.Planar.{plane, planar};
ghost use Rattle.multibody.specs.Answers.{WithoutRows, Filled, refused_number, plain_answer, load_header, build_answer, build_header, velocity_answer, sweep_answer};
ghost use Rattle.model.specs.Answers.{rows_answer, RowsFilled};

use crate::all_joints::rows_from;
use crate::counts::{rows_with, store_firsts};
use crate::joint_rows::ids_at;
use crate::plane::Plane;
use crate::refusals::{finite_pose, model_refusal, new_masks_fit, storage_refusal, unfit_refusal};
use crate::store::{put_masks, put_pose, vel_at};
use crate::targets::set_table;
use floats::pose::Pose;
use motor_table::table::read_table;
use multibody::all_joints::{build_all, remove_bias_all, sweep_all, warmstart_all, write_back_all};
use multibody::counts::{body_count, joint_count, row_capacity, rows_before};
use multibody::header::Header;
use multibody::joint_rows::{count_at, reads_rows};
use multibody::refusal::Refusal;
use multibody::refusals::finite_warm;
use rows::generic_joint::Masks;
use rows::joint_velocity_constraint::{Rows, SolverVel};
use rows::row_ids::RowIds;

// Rule 9: a sweep has at most so many rounds.
pub const MOST_ROUNDS: u32 = 64;

// The first of rules 1 to 8 and 12 that fails of a model, its row storage and a warm coefficient. It changes nothing: a crate above tries these rules once, before it
// works on the model.
pub fn front_refusal(
    header: Header,
    bodies: &[f32],
    words: &[u32],
    numbers: &[f32],
    rows: &[f32],
    warmstart: Option<f32>,
) -> Result<(), Refusal>
    ensures { refused_number result ≡ refusal (handed_rules planar true (model_of header bodies.now words.now numbers.now) none (finite_warm warmstart) rows.now) }
{
    storage_refusal(header, bodies, words, numbers, rows, finite_warm(warmstart))
}

// Checks the model, stores each joint's first row and marks the model not built.
pub fn load(
    header: Header,
    bodies: &[f32],
    words: &mut [u32],
    numbers: &[f32],
    rows: &[f32],
) -> Result<Header, Refusal>
    ensures { outcome (plain_answer result) (model_of (load_header header result) bodies.now words.new numbers.now) rows.now ≡ run planar load (model_of header bodies.now words.old numbers.now) rows.now }
{
    storage_refusal(header, bodies, words, numbers, rows, true)?;
    let joints = joint_count::<Plane>(words, numbers);
    store_firsts(words, joints);
    Ok(Header {
        built: false,
        ..header
    })
}

// Gives one body a new pose, and keeps the mark.
pub fn place(
    header: Header,
    bodies: &mut [f32],
    words: &[u32],
    numbers: &[f32],
    body: u32,
    pose: Pose,
) -> Result<(), Refusal>
    ensures { WithoutRows (outcome (plain_answer result) (model_of header bodies.new words.now numbers.now)) (run planar (place body pose) (model_of header bodies.old words.now numbers.now)) }
{
    model_refusal(header, bodies, words, numbers, finite_pose(pose))?;
    if (body as usize) >= body_count::<Plane>(bodies) {
        return Err(Refusal::NoSuchIndex);
    }
    put_pose(bodies, body, pose);
    Ok(())
}

// Makes all rows, and marks the model built: its header, and the number of the rows.
pub fn build(
    header: Header,
    bodies: &[f32],
    words: &[u32],
    numbers: &[f32],
    rows: &mut [f32],
    warmstart: Option<f32>,
    substep_id: u32,
) -> Result<(Header, usize), Refusal>
    ensures { outcome (build_answer result) (model_of (build_header header result) bodies.now words.now numbers.now) rows.new ≡ run planar (build warmstart substep_id) (model_of header bodies.now words.now numbers.now) rows.old }
{
    storage_refusal(header, bodies, words, numbers, rows, finite_warm(warmstart))?;
    if !header.built && reads_rows(warmstart, substep_id) {
        return Err(Refusal::NotBuilt);
    }
    let total = build_all::<Plane>(header, bodies, words, numbers, rows, warmstart, substep_id);
    let built = Header {
        built: true,
        ..header
    };
    Ok((built, total))
}

// The warm start of every row.
pub fn warm_start(
    header: Header,
    bodies: &mut [f32],
    words: &[u32],
    numbers: &[f32],
    rows: &[f32],
) -> Result<(), Refusal>
    ensures { outcome (plain_answer result) (model_of header bodies.new words.now numbers.now) rows.now ≡ run planar warm_start (model_of header bodies.old words.now numbers.now) rows.now }
{
    storage_refusal(header, bodies, words, numbers, rows, true)?;
    if !header.built {
        return Err(Refusal::NotBuilt);
    }
    warmstart_all::<Plane>(header, bodies, words, numbers, rows);
    Ok(())
}

// n rounds over all joints, ascending, and their rows in order. It tells of each joint how many of its motor rows the last round found low or high; past the joints are zeros.
pub fn sweep(
    header: Header,
    bodies: &mut [f32],
    words: &[u32],
    numbers: &[f32],
    rows: &mut [f32],
    n: u32,
) -> Result<[u8; 128], Refusal>
    ensures rows_after { outcome (sweep_answer (joint_count plane words.now numbers.now) result) (model_of header bodies.new words.now numbers.now) rows.new ≡ run planar (sweep n) (model_of header bodies.old words.now numbers.now) rows.old }
    ensures filled { Filled (joint_count plane words.now numbers.now) result }
{
    storage_refusal(header, bodies, words, numbers, rows, true)?;
    if n > MOST_ROUNDS {
        return Err(Refusal::TooManyRounds);
    }
    if !header.built {
        return Err(Refusal::NotBuilt);
    }
    let mut counts = [0u8; 128];
    sweep_all::<Plane>(header, bodies, words, numbers, rows, &mut counts, n);
    Ok(counts)
}

// Takes the bias off every row.
pub fn remove_bias(
    header: Header,
    bodies: &[f32],
    words: &[u32],
    numbers: &[f32],
    rows: &mut [f32],
) -> Result<(), Refusal>
    ensures { outcome (plain_answer result) (model_of header bodies.now words.now numbers.now) rows.new ≡ run planar remove_bias (model_of header bodies.now words.now numbers.now) rows.old }
{
    storage_refusal(header, bodies, words, numbers, rows, true)?;
    if !header.built {
        return Err(Refusal::NotBuilt);
    }
    remove_bias_all::<Plane>(header, bodies, words, numbers, rows);
    Ok(())
}

// Stores every row's impulse by its id.
pub fn write_back(
    header: Header,
    bodies: &[f32],
    words: &[u32],
    numbers: &mut [f32],
    rows: &[f32],
) -> Result<(), Refusal>
    ensures { outcome (plain_answer result) (model_of header bodies.now words.now numbers.new) rows.now ≡ run planar write_back (model_of header bodies.now words.now numbers.old) rows.now }
{
    storage_refusal(header, bodies, words, numbers, rows, true)?;
    if !header.built {
        return Err(Refusal::NotBuilt);
    }
    write_back_all::<Plane>(header, bodies, words, numbers, rows);
    Ok(())
}

// One joint's ids and rows; past their counts the arrays are filled up with blank ones.
pub fn read_rows(
    header: Header,
    bodies: &[f32],
    words: &[u32],
    numbers: &[f32],
    rows: &[f32],
    joint: u32,
) -> Result<(RowIds, Rows), Refusal>
    ensures rows_value { outcome (rows_answer result) (model_of header bodies.now words.now numbers.now) rows.now ≡ run planar (read_rows joint) (model_of header bodies.now words.now numbers.now) rows.now }
    ensures filled { RowsFilled (row_masks_at plane words.now joint) result }
{
    storage_refusal(header, bodies, words, numbers, rows, true)?;
    if !header.built {
        return Err(Refusal::NotBuilt);
    }
    let j = joint as usize;
    if j >= joint_count::<Plane>(words, numbers) {
        return Err(Refusal::NoSuchIndex);
    }
    let read = rows_from(
        rows,
        rows_before::<Plane>(words, j),
        count_at::<Plane>(words, j),
    );
    Ok((ids_at(words, j), read))
}

// One body's velocity.
pub fn read_velocity(
    header: Header,
    bodies: &[f32],
    words: &[u32],
    numbers: &[f32],
    body: u32,
) -> Result<SolverVel, Refusal>
    ensures { WithoutRows (outcome (velocity_answer plane result) (model_of header bodies.now words.now numbers.now)) (run planar (read_velocity body) (model_of header bodies.now words.now numbers.now)) }
{
    model_refusal(header, bodies, words, numbers, true)?;
    if (body as usize) >= body_count::<Plane>(bodies) {
        Err(Refusal::NoSuchIndex)
    } else {
        Ok(vel_at(bodies, body))
    }
}

// Gives a joint new masks (request R-10), stores each joint's first row and marks the model not built. Row storage is tested for the new total, and never written.
pub fn set_masks(
    header: Header,
    bodies: &[f32],
    words: &mut [u32],
    numbers: &[f32],
    rows: &[f32],
    joint: u32,
    masks: Masks,
) -> Result<Header, Refusal>
    ensures { outcome (plain_answer result) (model_of (load_header header result) bodies.now words.new numbers.now) rows.now ≡ run planar (set_masks joint masks) (model_of header bodies.now words.old numbers.now) rows.now }
{
    if !new_masks_fit(masks) {
        return Err(unfit_refusal(bodies, words, numbers));
    }
    model_refusal(header, bodies, words, numbers, true)?;
    let joints = joint_count::<Plane>(words, numbers);
    let j = joint as usize;
    let total = rows_with(words, joints, j, masks);
    if total > row_capacity::<Plane>(rows) {
        return Err(Refusal::NoRoom);
    }
    if j >= joints {
        return Err(Refusal::NoSuchIndex);
    }
    put_masks(words, j, masks);
    store_firsts(words, joints);
    let built = false;
    Ok(Header { built, ..header })
}

// Sets the target velocities of a motor table (request R-6), and keeps the mark.
pub fn set_targets(
    header: Header,
    bodies: &[f32],
    words: &[u32],
    numbers: &mut [f32],
    table: &[u8],
) -> Result<(), Refusal>
    ensures { WithoutRows (outcome (plain_answer result) (model_of header bodies.now words.now numbers.new)) (run planar (further table.now) (model_of header bodies.now words.now numbers.old)) }
{
    model_refusal(header, bodies, words, numbers, true)?;
    let joints = joint_count::<Plane>(words, numbers) as u32;
    let n = read_table(table, joints)?;
    set_table(&mut *numbers, table, joints, n);
    Ok(())
}
