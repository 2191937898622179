// The rows of a joint in space for the comparison with the Rust, by value.
ghost use Rattle.std.specs.Prelude.{◌≡◌, ◌≤◌};
ghost use Rattle.spatial_rows.specs.Step.{step_of, residual_of, warmstart_of, remove_bias_of};
ghost use Rattle.spatial_comparison.specs.RowExports.{side_number, stepped_of, at_most_nine, finalized, id_number, id_of, id_at, params_of, warm_of};
ghost use Rattle.spatial_rows.specs.Update.{rows_array};
ghost use Rattle.spatial_rows.specs.Builder.{builder_update_of};
ghost use Rattle.spatial_model.specs.SingleRecords.{joint_if_there, put_seed_if_there};

use floats::scalar::Side;
use rows::generic_joint::Masks;
use rows::integration_parameters::IntegrationParameters;
use rows::joint_velocity_constraint::WritebackId;
use spatial_model::single_records::{read_joint, write_impulse};
use spatial_rows::joint_constraint_builder::{SolverPose, update};
use spatial_rows::joint_constraint_helper::finalize_groups;
use spatial_rows::joint_velocity_constraint::{
    JointConstraint, Rows, SolverVel, SolverVels, solve_row,
};
use spatial_rows::row_ids::row_ids;

// What a step leaves, and which bound it met: inside is 0, low 1 and high 2.
#[repr(C)]
#[derive(Clone, Copy)]
pub struct Stepped {
    pub row: JointConstraint,
    pub vels: SolverVels,
    pub side: u32,
}

fn side_number(side: Side) -> u32
    ensures { result ≡ side_number side }
{
    match side {
        Side::Inside => 0,
        Side::Low => 1,
        Side::High => 2,
    }
}

#[unsafe(no_mangle)]
pub extern "C" fn katydidzinc_space_rows_step(
    row: JointConstraint,
    vel1: SolverVel,
    vel2: SolverVel,
) -> Stepped
    ensures { result ≡ stepped_of (step_of row vel1 vel2) }
{
    let solved = solve_row(row, vel1, vel2);
    let stepped = solved.row;
    let vels = solved.vels;
    let side = solved.side;
    Stepped {
        row: stepped,
        vels: vels,
        side: side_number(side),
    }
}

#[unsafe(no_mangle)]
pub extern "C" fn katydidzinc_space_rows_residual(
    row: JointConstraint,
    vel1: SolverVel,
    vel2: SolverVel,
) -> f32
    ensures { result ≡ residual_of row vel1 vel2 }
{
    row.residual(vel1, vel2)
}

#[unsafe(no_mangle)]
pub extern "C" fn katydidzinc_space_rows_warmstart(
    row: JointConstraint,
    vel1: SolverVel,
    vel2: SolverVel,
) -> SolverVels
    ensures { result ≡ warmstart_of row vel1 vel2 }
{
    row.warmstart_generic(vel1, vel2)
}

#[unsafe(no_mangle)]
pub extern "C" fn katydidzinc_space_rows_remove_bias(row: JointConstraint) -> JointConstraint
    ensures { result ≡ remove_bias_of row }
{
    row.remove_bias_from_rhs()
}

fn at_most_nine(n: usize) -> usize
    ensures { (result ≡ at_most_nine n) × (result ≤ 9) }
{
    if n < 9 {
        return n;
    }
    9
}

// The first of nine rows as one group, as many as `len` says, or all nine.
#[unsafe(no_mangle)]
pub extern "C" fn katydidzinc_space_rows_finalize(rows: Rows) -> Rows
    ensures { result ≡ finalized rows }
{
    let group = rows.rows;
    let len = rows.len;
    let n = at_most_nine(len);
    Rows {
        rows: finalize_groups(group, 0, n),
        len: len,
    }
}

// An id's number: 8 times its kind (Dof, Limit, Motor) plus its axis.
fn id_number(id: WritebackId) -> u32
    ensures { result ≡ id_number id }
{
    match id {
        WritebackId::Dof(i) => (i % 8) as u32,
        WritebackId::Limit(i) => 8 + (i % 8) as u32,
        WritebackId::Motor(i) => 16 + (i % 8) as u32,
    }
}

// The number of id k of a joint with these masks; 1000 past the ninth.
#[unsafe(no_mangle)]
pub extern "C" fn katydidzinc_space_row_id(
    locked_axes: u32,
    limit_axes: u32,
    motor_axes: u32,
    coupled_axes: u32,
    k: usize,
) -> u32
    ensures { result ≡ id_at (record { locked_axes = locked_axes; limit_axes = limit_axes; motor_axes = motor_axes; coupled_axes = coupled_axes }) k }
{
    let named = row_ids(Masks {
        locked_axes: locked_axes,
        limit_axes: limit_axes,
        motor_axes: motor_axes,
        coupled_axes: coupled_axes,
    });
    let ids = named.ids;
    if k < 9 {
        let entry = ids[k];
        let id = entry.id;
        return id_number(id);
    }
    1000
}

// The last impulses of nine rows.
#[repr(C)]
#[derive(Clone, Copy)]
pub struct Impulses {
    pub values: [f32; 9],
}

// A warm coefficient, or none where the flag is 0.
fn warm_of(warm: u32, coefficient: f32) -> Option<f32>
    ensures { result ≡ warm_of warm coefficient }
{
    if warm == 0 {
        return None;
    }
    Some(coefficient)
}

// The rows of the joint whose ten words and 49 numbers are handed over, as a model stores them.
#[unsafe(no_mangle)]
pub extern "C" fn katydidzinc_space_rows_build(
    words: &[u32],
    numbers: &[f32],
    dt: f32,
    length_unit: f32,
    normalized: f32,
    warm: u32,
    coefficient: f32,
    substep_id: u32,
    body1: SolverPose,
    body2: SolverPose,
    prevs: Impulses,
) -> Rows
    ensures { result ≡ rows_array (builder_update_of (params_of dt length_unit normalized) substep_id (warm_of warm coefficient) body1 body2 (joint_if_there words.now numbers.now 0) prevs.values) }
{
    let params = IntegrationParameters {
        dt: dt,
        length_unit: length_unit,
        normalized_max_corrective_velocity: normalized,
    };
    let warmstart = warm_of(warm, coefficient);
    let joint = read_joint(words, numbers, 0);
    let values = prevs.values;
    update(params, substep_id, warmstart, body1, body2, joint, values)
}

// The id of a number. Numbers past these kinds become a lock of axis 6, which has no stored impulse.
fn id_of(id: u32) -> WritebackId
    ensures { result ≡ id_of id }
{
    let axis = (id % 8) as usize;
    if id < 8 {
        return WritebackId::Dof(axis);
    }
    if id < 16 {
        return WritebackId::Limit(axis);
    }
    if id < 24 {
        return WritebackId::Motor(axis);
    }
    WritebackId::Dof(6)
}

// A row's impulse stored in a joint's 49 numbers.
#[unsafe(no_mangle)]
pub extern "C" fn katydidzinc_space_rows_writeback(id: u32, impulse: f32, numbers: &mut [f32])
    ensures { numbers.new ≡ put_seed_if_there numbers.old 0 (id_of id) impulse }
{
    let which = id_of(id);
    write_impulse(numbers, 0, which, impulse);
}
