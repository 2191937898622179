// The rows of a joint in space by value, as spatial_comparison has them.
ghost use Rattle.std.specs.Prelude.{◌≡◌};
ghost use Rattle.spatial_rows.specs.Step.{step_of, residual_of, warmstart_of, remove_bias_of};
ghost use Rattle.spatial_comparison.specs.RowExports.{stepped_of, finalized, id_of, id_at, params_of, warm_of};
ghost use Rattle.spatial_rows.specs.Update.{rows_array};
ghost use Rattle.spatial_rows.specs.Builder.{builder_update_of};
ghost use Rattle.spatial_model.specs.SingleRecords.{joint_if_there, put_seed_if_there};

use spatial_comparison::joint::{Impulses, Stepped};
use spatial_rows::joint_constraint_builder::SolverPose;
use spatial_rows::joint_velocity_constraint::{JointConstraint, Rows, SolverVel, SolverVels};

#[unsafe(no_mangle)]
pub extern "C" fn katydidzinc_space_rows_step(
    row: JointConstraint,
    vel1: SolverVel,
    vel2: SolverVel,
) -> Stepped
    ensures { result ≡ stepped_of (step_of row vel1 vel2) }
{
    spatial_comparison::joint::katydidzinc_space_rows_step(row, vel1, vel2)
}

#[unsafe(no_mangle)]
pub extern "C" fn katydidzinc_space_rows_residual(
    row: JointConstraint,
    vel1: SolverVel,
    vel2: SolverVel,
) -> f32
    ensures { result ≡ residual_of row vel1 vel2 }
{
    spatial_comparison::joint::katydidzinc_space_rows_residual(row, vel1, vel2)
}

#[unsafe(no_mangle)]
pub extern "C" fn katydidzinc_space_rows_warmstart(
    row: JointConstraint,
    vel1: SolverVel,
    vel2: SolverVel,
) -> SolverVels
    ensures { result ≡ warmstart_of row vel1 vel2 }
{
    spatial_comparison::joint::katydidzinc_space_rows_warmstart(row, vel1, vel2)
}

#[unsafe(no_mangle)]
pub extern "C" fn katydidzinc_space_rows_remove_bias(row: JointConstraint) -> JointConstraint
    ensures { result ≡ remove_bias_of row }
{
    spatial_comparison::joint::katydidzinc_space_rows_remove_bias(row)
}

// The first of nine rows as one group, as many as `len` says, or all nine.
#[unsafe(no_mangle)]
pub extern "C" fn katydidzinc_space_rows_finalize(rows: Rows) -> Rows
    ensures { result ≡ finalized rows }
{
    spatial_comparison::joint::katydidzinc_space_rows_finalize(rows)
}

// The number of id k of a joint with these masks; 1000 past the ninth.
#[unsafe(no_mangle)]
pub extern "C" fn katydidzinc_space_row_id(
    locked_axes: u32,
    limit_axes: u32,
    motor_axes: u32,
    coupled_axes: u32,
    k: usize,
) -> u32
    ensures { result ≡ id_at (record { locked_axes = locked_axes; limit_axes = limit_axes; motor_axes = motor_axes; coupled_axes = coupled_axes }) k }
{
    spatial_comparison::joint::katydidzinc_space_row_id(
        locked_axes,
        limit_axes,
        motor_axes,
        coupled_axes,
        k,
    )
}

// The rows of the joint whose ten words and 49 numbers are handed over, as a model stores them.
#[unsafe(no_mangle)]
pub extern "C" fn katydidzinc_space_rows_build(
    words: &[u32],
    numbers: &[f32],
    dt: f32,
    length_unit: f32,
    normalized: f32,
    warm: u32,
    coefficient: f32,
    substep_id: u32,
    body1: SolverPose,
    body2: SolverPose,
    prevs: Impulses,
) -> Rows
    ensures { result ≡ rows_array (builder_update_of (params_of dt length_unit normalized) substep_id (warm_of warm coefficient) body1 body2 (joint_if_there words.now numbers.now 0) prevs.values) }
{
    spatial_comparison::joint::katydidzinc_space_rows_build(
        words,
        numbers,
        dt,
        length_unit,
        normalized,
        warm,
        coefficient,
        substep_id,
        body1,
        body2,
        prevs,
    )
}

// A row's impulse stored in a joint's 49 numbers.
#[unsafe(no_mangle)]
pub extern "C" fn katydidzinc_space_rows_writeback(id: u32, impulse: f32, numbers: &mut [f32])
    ensures { numbers.new ≡ put_seed_if_there numbers.old 0 (id_of id) impulse }
{
    spatial_comparison::joint::katydidzinc_space_rows_writeback(id, impulse, numbers);
}
