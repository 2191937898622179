// One joint's rows in storage: made, stepped, warm started, freed of their bias, written back.
ghost use Rattle.std.specs.Prelude.{◌≡◌, true, ◌+◌, ◌*◌, ◌≤◌, length};
ghost use Rattle.floats.specs.Operators.{bits};
ghost use Rattle.rows.specs.Builder.{builder_update_of};
ghost use Rattle.rows.specs.GenericJoint.{is_enabled};
ghost use Rattle.rows.specs.RowIds.{no_masks, filled, row_ids_array};
ghost use Rattle.rows.specs.declared.integration_parameters.IntegrationParameters.{IntegrationParameters};
ghost use Rattle.rows.specs.declared.joint_constraint_builder.ImpulseJoint.{ImpulseJoint};
ghost use Rattle.rows.specs.declared.joint_constraint_builder.SolverPose.{SolverPose};
ghost use Rattle.model.specs.Layout.{row_width, words_width, numbers_width};
ghost use Rattle.multibody.specs.Refusals.{reads_rows};
ghost use Rattle.multibody.specs.JointRows.{state, row_masks_at, row_count, motor_count, put_rows, impulses_at, build_joint, sweep_row, sweep_side, sweep_joint, count_row, count_rows, warmstart_row, warmstart_joint, remove_bias_joint, write_back_joint};
ghost use Rattle.model.specs.Planar.{plane};
ghost use Rattle.model.specs.Store.{Present, put_masks, enabled_at, body1_at, body2_at};
ghost use Rattle.model.specs.JointRows.{rows_list};

use crate::layout::ROW_WIDTH;
use crate::plane::Plane;
use crate::store::{joint_at, put_row, put_seed, put_vel, solver_pose_at, vel_at};
use floats::scalar::Side;
use multibody::joint_rows::{count_at, reads_rows, row_masks_at};
use multibody::kind::Kind;
use rows::generic_joint::Masks;
use rows::integration_parameters::IntegrationParameters;
use rows::joint_constraint_builder::update;
use rows::joint_velocity_constraint::Rows;
use rows::row_ids::{RowIds, motor_count, row_count, row_ids};

// The ids of joint j's rows, in order.
pub fn ids_at(words: &[u32], j: usize) -> RowIds
    requires { j * words_width + words_width ≤ length words.now }
    ensures { result ≡ row_ids_array (row_masks_at plane words.now j) }
{
    row_ids(row_masks_at::<Plane>(words, j))
}

// Their number once joint j has other masks, of which none is stored yet (request R-10): joint i's own where it is another one.
pub fn count_with(words: &[u32], i: usize, j: usize, masks: Masks) -> usize
    requires { i * words_width + words_width ≤ length words.now }
    ensures { result ≡ row_count plane (put_masks words.now j masks) i }
{
    if i != j {
        return count_at::<Plane>(words, i);
    }
    let enabled = Plane::enabled_at(words, i);
    if enabled.is_enabled() {
        return row_count(masks);
    }
    0
}

// The impulses of n rows from row k on, at most six.
pub fn impulses_at(rows: &[f32], k: usize, n: usize) -> [f32; 6]
    requires n_bound { n ≤ 6 }
    requires row_width_in_bounds { (k + n) * row_width ≤ length rows.now }
    ensures { result ≡ filled 6 (bits 0) (impulses_at plane rows.now k n) }
{
    let mut out = [0.0f32; 6];
    for i in 0..n {
        out[i] = rows[(k + i) * ROW_WIDTH];
    }
    out
}

// The impulses from which a build starts n rows from row k on, at most six, as it left them before: where it reads none, zeros. What it makes is the same as from the rows' own impulses.
fn last_impulses(
    rows: &[f32],
    k: usize,
    n: usize,
    warmstart: Option<f32>,
    substep_id: u32,
) -> [f32; 6]
    requires n_bound { n ≤ 6 }
    requires row_width_in_bounds { (k + n) * row_width ≤ length rows.now }
    ensures { (params : IntegrationParameters) (body1 body2 : SolverPose) (joint : ImpulseJoint) → builder_update_of params substep_id warmstart body1 body2 joint result ≡ builder_update_of params substep_id warmstart body1 body2 joint (filled 6 (bits 0) (impulses_at plane rows.now k n)) }
{
    if reads_rows(warmstart, substep_id) {
        return impulses_at(rows, k, n);
    }
    [0.0f32; 6]
}

// The rows of an array, stored from row k on.
pub fn put_rows(rows: &mut [f32], k: usize, made: Rows)
    requires len_bound { made.len ≤ 6 }
    requires row_width_in_bounds { (k + made.len) * row_width ≤ length rows.old }
    ensures { rows.new ≡ put_rows plane rows.old k (rows_list made) }
{
    for i in 0..made.len {
        put_row(rows, k + i, made.rows[i]);
    }
}

// The rows of joint j, which is enabled, made anew and stored from row `first` on; their number comes back.
pub fn build_enabled(
    params: IntegrationParameters,
    bodies: &[f32],
    words: &[u32],
    numbers: &[f32],
    j: usize,
    rows: &mut [f32],
    first: usize,
    warmstart: Option<f32>,
    substep_id: u32,
) -> usize
    requires words_width_in_bounds { j * words_width + words_width ≤ length words.now }
    requires numbers_width_in_bounds { j * numbers_width + numbers_width ≤ length numbers.now }
    requires present { Present bodies.now (body1_at words.now j) }
    requires present_2 { Present bodies.now (body2_at words.now j) }
    requires row_width_in_bounds { (first + row_count plane words.now j) * row_width ≤ length rows.old }
    requires j_value { is_enabled (enabled_at words.now j) ≡ true }
    ensures { (result ≡ row_count plane words.now j) × (rows.new ≡ build_joint plane params bodies.now words.now numbers.now j first warmstart substep_id rows.old) }
{
    let n = count_at::<Plane>(words, j);
    let prevs = last_impulses(rows, first, n, warmstart, substep_id);
    let joint = joint_at(words, numbers, j);
    let body1 = solver_pose_at(bodies, Plane::body1_at(words, j));
    let body2 = solver_pose_at(bodies, Plane::body2_at(words, j));
    let made = update(params, substep_id, warmstart, body1, body2, joint, prevs);
    put_rows(rows, first, made);
    n
}
