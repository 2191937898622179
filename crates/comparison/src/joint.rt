// The rows of a joint for the comparison, over numbers and slices. A row is 18 numbers, in the order of its struct's
// fields; two velocities are six: linear x and y and angular, of body 1 and then of body 2. Where a slice
// is shorter than what a function reads or writes of it, nothing is written; a build then answers 1000, which is
// no joint's number of rows.
ghost use Rattle.std.specs.Prelude.{◌≡◌, ◌+◌, ◌*◌, ◌≤◌, ◌<◌, length};
ghost use Rattle.comparison.specs.JointExports.{vel_at, put_vels, step_row, step_vels, step_side, warmstart, remove_bias, id_of, writeback, rows_at, put_six, at_most_six, finalize, combine_coefficients, spring, angular_limit, body_at, joint_from, warm_from, impulses_from, made_from, masks_from, build_rows, build_ids, build_count, roomy_rows, roomy_ids, roomy_count};
ghost use Rattle.capi.specs.CallExports.{params_of};
ghost use Rattle.model.specs.Layout.{row_width};
ghost use Rattle.model.specs.Store.{row_at, motor_model_of};
ghost use Rattle.floats.specs.Operators.{bits};
ghost use Rattle.rows.specs.IntegrationParameters.{inv_dt_of, max_corrective_velocity_of};
ghost use Rattle.rows.specs.GenericJoint.{max_impulse_of};
ghost use Rattle.rows.specs.RowIds.{row_ids_array};
ghost use Rattle.rows.specs.Update.{rows_array};

use crate::side_number;
use capi::stored::{put_first, put_ids, put_row, put_three};
use floats::pose::Pose;
use floats::rotation_ops::Rotation;
use floats::vector::Vector;
use model::layout::{NUMBERS_WIDTH, ROW_WIDTH};
use model::single_records::{read_joint, read_row, write_impulse};
use rows::generic_joint::{JointMotor, Masks};
use rows::integration_parameters::{IntegrationParameters, SpringCoefficients};
use rows::joint_constraint_builder::{ImpulseJoint, SolverPose, update};
use rows::joint_constraint_helper::{AngularLimitParams, finalize_groups};
use rows::joint_velocity_constraint::{
    JointConstraint, Rows, SolverVel, SolverVels, WritebackId, solve_row,
};
use rows::motor_model::MotorModel;
use rows::row_ids::row_ids;

// Row k of a slice that holds it.
fn row_at(s: &[f32], k: usize) -> JointConstraint
    requires { k * row_width + row_width ≤ length s.now }
    ensures { result ≡ row_at s.now k }
{
    read_row(s, k)
}

// The velocity in the three numbers from `at` on.
fn vel_at(vels: &[f32], at: usize) -> SolverVel
    requires { at + 2 < length vels.now }
    ensures { result ≡ vel_at vels.now at }
{
    SolverVel {
        linear: Vector {
            x: vels[at],
            y: vels[at + 1],
        },
        angular: vels[at + 2],
    }
}

fn put_vels(out: &mut [f32], v: SolverVels)
    requires { 6 ≤ length out.old }
    ensures { out.new ≡ put_vels out.old v }
{
    let v1 = v.vel1;
    let v2 = v.vel2;
    let linear1 = v1.linear;
    let linear2 = v2.linear;
    put_three(out, 0, linear1.x, linear1.y, v1.angular);
    put_three(out, 3, linear2.x, linear2.y, v2.angular);
}

// Which bound the step met comes back, as `katydidzinc_clamp_side` has it; 3 where a slice is too short, and then nothing is done.
#[unsafe(no_mangle)]
pub extern "C" fn katydidzinc_rows_step(row: &mut [f32], vels: &mut [f32]) -> u32
    ensures value { result ≡ step_side row.old vels.old }
    ensures row_after { row.new ≡ step_row row.old vels.old }
    ensures vels_after { vels.new ≡ step_vels row.old vels.old }
{
    if row.len() < ROW_WIDTH {
        return 3;
    }
    if vels.len() < 6 {
        return 3;
    }
    let c = row_at(row, 0);
    let solved = solve_row(c, vel_at(vels, 0), vel_at(vels, 3));
    let stepped = solved.row;
    let after = solved.vels;
    let side = solved.side;
    put_row(row, 0, stepped);
    put_vels(vels, after);
    side_number(side)
}

#[unsafe(no_mangle)]
pub extern "C" fn katydidzinc_rows_warmstart(row: &[f32], vels: &mut [f32])
    ensures { vels.new ≡ warmstart row.now vels.old }
{
    if row.len() < ROW_WIDTH {
        return;
    }
    if vels.len() < 6 {
        return;
    }
    let c = row_at(row, 0);
    let after = c.warmstart_generic(vel_at(vels, 0), vel_at(vels, 3));
    put_vels(vels, after);
}

#[unsafe(no_mangle)]
pub extern "C" fn katydidzinc_rows_remove_bias(row: &mut [f32])
    ensures { row.new ≡ remove_bias row.old }
{
    if row.len() < ROW_WIDTH {
        return;
    }
    let c = row_at(row, 0);
    put_row(row, 0, c.remove_bias_from_rhs());
}

// An id from its number, 4 times its kind (Dof, Limit, Motor) plus its axis. Numbers past these
// kinds become a lock of axis 3, which has no stored impulse.
fn id_of(id: u32) -> WritebackId
    ensures { result ≡ id_of id }
{
    let axis = (id % 4) as usize;
    if id < 4 {
        return WritebackId::Dof(axis);
    }
    if id < 8 {
        return WritebackId::Limit(axis);
    }
    if id < 12 {
        return WritebackId::Motor(axis);
    }
    WritebackId::Dof(3)
}

// A row's impulse stored in a joint's numbers.
#[unsafe(no_mangle)]
pub extern "C" fn katydidzinc_rows_writeback(id: u32, impulse: f32, numbers: &mut [f32])
    ensures { numbers.new ≡ writeback id impulse numbers.old }
{
    if numbers.len() < NUMBERS_WIDTH {
        return;
    }
    let which = id_of(id);
    write_impulse(numbers, 0, which, impulse);
}

fn rows_at(rows: &[f32]) -> [JointConstraint; 6]
    requires { 108 ≤ length rows.now }
    ensures { result ≡ rows_at rows.now }
{
    let a = row_at(rows, 0);
    let b = row_at(rows, 1);
    let c = row_at(rows, 2);
    let d = row_at(rows, 3);
    let e = row_at(rows, 4);
    let f = row_at(rows, 5);
    [a, b, c, d, e, f]
}

fn put_six(rows: &mut [f32], made: [JointConstraint; 6])
    requires { 108 ≤ length rows.old }
    ensures { rows.new ≡ put_six rows.old made }
{
    put_row(rows, 0, made[0]);
    put_row(rows, 1, made[1]);
    put_row(rows, 2, made[2]);
    put_row(rows, 3, made[3]);
    put_row(rows, 4, made[4]);
    put_row(rows, 5, made[5]);
}

fn at_most_six(n: usize) -> usize
    ensures { (result ≡ at_most_six n) × (result ≤ 6) }
{
    if n < 6 {
        return n;
    }
    6
}

// The first n of six rows as one group, or all six.
#[unsafe(no_mangle)]
pub extern "C" fn katydidzinc_rows_finalize(n: usize, rows: &mut [f32])
    ensures { rows.new ≡ finalize n rows.old }
{
    if rows.len() < 108 {
        return;
    }
    let group = rows_at(rows);
    let len = at_most_six(n);
    let made = finalize_groups(group, 0, len);
    put_six(rows, made);
}

// 0 is acceleration based, and every other number force based.
fn motor_model_of(m: u32) -> MotorModel
    ensures { result ≡ motor_model_of m }
{
    if m == 0 {
        return MotorModel::AccelerationBased;
    }
    MotorModel::ForceBased
}

#[unsafe(no_mangle)]
pub extern "C" fn katydidzinc_combine_coefficients(
    model: u32,
    dt: f32,
    stiffness: f32,
    damping: f32,
    out: &mut [f32],
)
    ensures { out.new ≡ combine_coefficients model dt stiffness damping out.old }
{
    if out.len() < 3 {
        return;
    }
    let motor_model = motor_model_of(model);
    let c = motor_model.combine_coefficients(dt, stiffness, damping);
    put_three(out, 0, c.erp_inv_dt, c.cfm_coeff, c.cfm_gain);
}

#[unsafe(no_mangle)]
pub extern "C" fn katydidzinc_spring(
    natural_frequency: f32,
    damping_ratio: f32,
    dt: f32,
    out: &mut [f32],
)
    ensures { out.new ≡ spring natural_frequency damping_ratio dt out.old }
{
    if out.len() < 2 {
        return;
    }
    let softness = SpringCoefficients {
        natural_frequency: natural_frequency,
        damping_ratio: damping_ratio,
    };
    let erp_inv_dt = softness.erp_inv_dt(dt);
    let cfm_coeff = softness.cfm_coeff(dt);
    out[0] = erp_inv_dt;
    out[1] = cfm_coeff;
}

#[unsafe(no_mangle)]
pub extern "C" fn katydidzinc_inv_dt(dt: f32) -> f32
    ensures { result ≡ inv_dt_of (params_of dt (bits 0) (bits 0)) }
{
    let params = IntegrationParameters {
        dt: dt,
        length_unit: 0.0,
        normalized_max_corrective_velocity: 0.0,
    };
    params.inv_dt()
}

#[unsafe(no_mangle)]
pub extern "C" fn katydidzinc_max_corrective_velocity(length_unit: f32, normalized: f32) -> f32
    ensures { result ≡ max_corrective_velocity_of (params_of (bits 0) length_unit normalized) }
{
    let params = IntegrationParameters {
        dt: 0.0,
        length_unit: length_unit,
        normalized_max_corrective_velocity: normalized,
    };
    params.max_corrective_velocity()
}

#[unsafe(no_mangle)]
pub extern "C" fn katydidzinc_max_impulse(max_force: f32, dt: f32) -> f32
    ensures { result ≡ max_impulse_of max_force dt }
{
    JointMotor::max_impulse(max_force, dt)
}

#[unsafe(no_mangle)]
pub extern "C" fn katydidzinc_angular_limit(min: f32, max: f32, cos: f32, sin: f32, out: &mut [f32])
    ensures { out.new ≡ angular_limit min max cos sin out.old }
{
    if out.len() < 3 {
        return;
    }
    let limit = AngularLimitParams::new(min, max, Rotation { re: cos, im: sin });
    let center = limit.center;
    put_three(out, 0, center.re, center.im, limit.half_range);
}

// ---- a joint's rows from 9 words (four masks, three motor models, whether a warm coefficient is
// given, substep) and 60 numbers (dt, length unit and largest corrective velocity; seven of body 1;
// seven of body 2; the joint's 42; warm coefficient)

// The body in the seven numbers from `i` on.
fn body_at(numbers: &[f32], i: usize) -> SolverPose
    requires { i + 7 ≤ length numbers.now }
    ensures { result ≡ body_at numbers.now i }
{
    SolverPose {
        pose: Pose {
            rotation: Rotation {
                re: numbers[i],
                im: numbers[i + 1],
            },
            translation: Vector {
                x: numbers[i + 2],
                y: numbers[i + 3],
            },
        },
        ii: numbers[i + 4],
        im: Vector {
            x: numbers[i + 5],
            y: numbers[i + 6],
        },
    }
}

// The joint: its stored words would start with its two bodies, and end with two that say that it is
// enabled and that its centre is typed as cosine and sine, and its first row.
fn joint_from(words: &[u32], numbers: &[f32]) -> ImpulseJoint
    requires in_bounds { 9 ≤ length words.now }
    requires in_bounds_2 { 60 ≤ length numbers.now }
    ensures { result ≡ joint_from words.now numbers.now }
{
    let all = [
        0u32, 0u32, words[0], words[1], words[2], words[3], words[4], words[5], words[6], 0u32,
        0u32, 0u32,
    ];
    read_joint(&all, &numbers[17..59], 0)
}

fn warm_from(words: &[u32], numbers: &[f32]) -> Option<f32>
    requires in_bounds { 9 ≤ length words.now }
    requires in_bounds_2 { 60 ≤ length numbers.now }
    ensures { result ≡ warm_from words.now numbers.now }
{
    if words[7] == 0 {
        return None;
    }
    Some(numbers[59])
}

// The impulses that six rows hold.
fn impulses_from(rows: &[f32]) -> [f32; 6]
    requires { 108 ≤ length rows.now }
    ensures { result ≡ impulses_from rows.now }
{
    [rows[0], rows[18], rows[36], rows[54], rows[72], rows[90]]
}

fn made_from(words: &[u32], numbers: &[f32], prevs: [f32; 6]) -> Rows
    requires in_bounds { 9 ≤ length words.now }
    requires in_bounds_2 { 60 ≤ length numbers.now }
    ensures { result ≡ rows_array (made_from words.now numbers.now prevs) }
{
    let substep_id = words[8];
    let dt = numbers[0];
    let length_unit = numbers[1];
    let normalized = numbers[2];
    let params = IntegrationParameters {
        dt: dt,
        length_unit: length_unit,
        normalized_max_corrective_velocity: normalized,
    };
    let warmstart = warm_from(words, numbers);
    let body1 = body_at(numbers, 3);
    let body2 = body_at(numbers, 10);
    let joint = joint_from(words, numbers);
    update(params, substep_id, warmstart, body1, body2, joint, prevs)
}

fn masks_from(words: &[u32]) -> Masks
    requires { 9 ≤ length words.now }
    ensures { result ≡ masks_from words.now }
{
    Masks {
        locked_axes: words[0],
        limit_axes: words[1],
        motor_axes: words[2],
        coupled_axes: words[3],
    }
}

// The rows and their ids, stored; the number of rows comes back.
fn build(words: &[u32], numbers: &[f32], rows: &mut [f32], ids: &mut [u32]) -> usize
    requires in_bounds { 9 ≤ length words.now }
    requires in_bounds_2 { 60 ≤ length numbers.now }
    requires in_bounds_3 { 108 ≤ length rows.old }
    requires in_bounds_4 { 6 ≤ length ids.old }
    ensures value { result ≡ roomy_count words.now numbers.now rows.old }
    ensures rows_after { rows.new ≡ roomy_rows words.now numbers.now rows.old }
    ensures ids_after { ids.new ≡ roomy_ids words.now ids.old }
{
    let prevs = impulses_from(rows);
    let made = made_from(words, numbers, prevs);
    let named = row_ids(masks_from(words));
    put_first(rows, made);
    put_ids(ids, named);
    made.len
}

#[unsafe(no_mangle)]
pub extern "C" fn katydidzinc_rows_build(
    words: &[u32],
    numbers: &[f32],
    rows: &mut [f32],
    ids: &mut [u32],
) -> usize
    ensures value { result ≡ build_count words.now numbers.now rows.old ids.old }
    ensures rows_after { rows.new ≡ build_rows words.now numbers.now rows.old ids.old }
    ensures ids_after { ids.new ≡ build_ids words.now numbers.now rows.old ids.old }
{
    if words.len() < 9 {
        return 1000;
    }
    if numbers.len() < 60 {
        return 1000;
    }
    if rows.len() < 108 {
        return 1000;
    }
    if ids.len() < 6 {
        return 1000;
    }
    build(words, numbers, rows, ids)
}
