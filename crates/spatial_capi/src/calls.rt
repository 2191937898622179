// The calls on a model in space for C, Rust and Python callers, as capi's on a planar one: a header is its three settings and the mark, and an answer is 64 bits wide (crates/capi/src/calls.rt).
ghost use Rattle.std.specs.Prelude.{◌≡◌, [], cond};
ghost use Rattle.multibody.specs.Calls.{run};
ghost use Rattle.multibody.specs.Calls.Call.{load, place, build, warm_start, sweep, remove_bias, write_back, read_rows, read_velocity};
ghost use Rattle.spatial_model.specs.Spatial.{spatial};
ghost use Rattle.capi.specs.CallExports.{warm_of, number, marked_number, counts_out, short_slice, room_for_counts};
ghost use Rattle.spatial_capi.specs.CallExports.{lent, pose_from, rows_read_at, rows_number, rows_out, ids_out, room_for_rows, rows_if_room, ids_if_room, swept_at, room_for_velocity, velocity_number, put_velocity, velocity_out};

use crate::stored::{put_first, put_ids};
use capi::calls::{
    SHORT_SLICE, build_number, header, load_number, plain_number, put_counts, rows_number, warm_of,
};
use capi::stored::put_three;
use spatial_floats::pose::Pose;
use spatial_floats::rotation_ops::Rotation;
use spatial_floats::vector::Vector;
use spatial_model::calls::{
    build, load, place, read_rows, read_velocity, remove_bias, sweep, warm_start, write_back,
};
use spatial_rows::joint_velocity_constraint::{Rows, SolverVel};
use spatial_rows::row_ids::RowIds;

// What the slices of a row read have room for, however many rows there are; and those of a velocity read.
pub const READ_NUMBERS: usize = 261;

pub const READ_IDS: usize = 9;

pub const VELOCITY_NUMBERS: usize = 6;

#[unsafe(no_mangle)]
pub extern "C" fn katydidzinc_space_load(
    dt: f32,
    length_unit: f32,
    normalized: f32,
    built: u32,
    bodies: &[f32],
    words: &[u32],
    numbers: &[f32],
    rows: &[f32],
) -> u64
    ensures { result ≡ marked_number (run spatial load (lent dt length_unit normalized built bodies.now words.now numbers.now) rows.now) }
{
    let h = header(dt, length_unit, normalized, built);
    load_number(load(h, bodies, words, numbers, rows))
}

#[unsafe(no_mangle)]
pub extern "C" fn katydidzinc_space_place(
    dt: f32,
    length_unit: f32,
    normalized: f32,
    built: u32,
    bodies: &mut [f32],
    words: &[u32],
    numbers: &[f32],
    body: u32,
    qx: f32,
    qy: f32,
    qz: f32,
    qw: f32,
    x: f32,
    y: f32,
    z: f32,
) -> u64
    ensures value { result ≡ number (run spatial (place body (pose_from qx qy qz qw x y z)) (lent dt length_unit normalized built bodies.old words.now numbers.now) []).answer }
    ensures bodies_after { bodies.new ≡ (run spatial (place body (pose_from qx qy qz qw x y z)) (lent dt length_unit normalized built bodies.old words.now numbers.now) []).after.bodies }
{
    let h = header(dt, length_unit, normalized, built);
    let pose = Pose {
        rotation: Rotation {
            x: qx,
            y: qy,
            z: qz,
            w: qw,
        },
        translation: Vector { x, y, z },
    };
    plain_number(place(h, bodies, words, numbers, body, pose))
}

#[unsafe(no_mangle)]
pub extern "C" fn katydidzinc_space_build(
    dt: f32,
    length_unit: f32,
    normalized: f32,
    built: u32,
    bodies: &[f32],
    words: &[u32],
    numbers: &[f32],
    rows: &mut [f32],
    warm: u32,
    coefficient: f32,
    substep_id: u32,
) -> u64
    ensures value { result ≡ marked_number (run spatial (build (warm_of warm coefficient) substep_id) (lent dt length_unit normalized built bodies.now words.now numbers.now) rows.old) }
    ensures rows_after { rows.new ≡ (run spatial (build (warm_of warm coefficient) substep_id) (lent dt length_unit normalized built bodies.now words.now numbers.now) rows.old).rows }
{
    let h = header(dt, length_unit, normalized, built);
    let warmstart = warm_of(warm, coefficient);
    build_number(build(h, bodies, words, numbers, rows, warmstart, substep_id))
}

#[unsafe(no_mangle)]
pub extern "C" fn katydidzinc_space_warm_start(
    dt: f32,
    length_unit: f32,
    normalized: f32,
    built: u32,
    bodies: &mut [f32],
    words: &[u32],
    numbers: &[f32],
    rows: &[f32],
) -> u64
    ensures value { result ≡ number (run spatial warm_start (lent dt length_unit normalized built bodies.old words.now numbers.now) rows.now).answer }
    ensures bodies_after { bodies.new ≡ (run spatial warm_start (lent dt length_unit normalized built bodies.old words.now numbers.now) rows.now).after.bodies }
{
    let h = header(dt, length_unit, normalized, built);
    plain_number(warm_start(h, bodies, words, numbers, rows))
}

// 128 bytes are lent for the counts, one a joint. Where there are fewer the answer says so, and nothing is done.
#[unsafe(no_mangle)]
pub extern "C" fn katydidzinc_space_sweep(
    dt: f32,
    length_unit: f32,
    normalized: f32,
    built: u32,
    bodies: &mut [f32],
    words: &[u32],
    numbers: &[f32],
    rows: &mut [f32],
    n: u32,
    counts: &mut [u8],
) -> u64
    ensures value { result ≡ cond (room_for_counts counts.old) (number (run spatial (sweep n) (lent dt length_unit normalized built bodies.old words.now numbers.now) rows.old).answer) short_slice }
    ensures bodies_after { bodies.new ≡ cond (room_for_counts counts.old) (run spatial (sweep n) (lent dt length_unit normalized built bodies.old words.now numbers.now) rows.old).after.bodies bodies.old }
    ensures rows_after { rows.new ≡ cond (room_for_counts counts.old) (run spatial (sweep n) (lent dt length_unit normalized built bodies.old words.now numbers.now) rows.old).rows rows.old }
    ensures counts_after { counts.new ≡ cond (room_for_counts counts.old) (counts_out (swept_at n (lent dt length_unit normalized built bodies.old words.now numbers.now) rows.old) counts.old) counts.old }
{
    if counts.len() < 128 {
        return SHORT_SLICE;
    }
    let h = header(dt, length_unit, normalized, built);
    match sweep(h, bodies, words, numbers, rows, n) {
        Ok(made) => {
            put_counts(counts, made);
            0
        }
        Err(refused) => refused.number() as u64,
    }
}

#[unsafe(no_mangle)]
pub extern "C" fn katydidzinc_space_remove_bias(
    dt: f32,
    length_unit: f32,
    normalized: f32,
    built: u32,
    bodies: &[f32],
    words: &[u32],
    numbers: &[f32],
    rows: &mut [f32],
) -> u64
    ensures value { result ≡ number (run spatial remove_bias (lent dt length_unit normalized built bodies.now words.now numbers.now) rows.old).answer }
    ensures rows_after { rows.new ≡ (run spatial remove_bias (lent dt length_unit normalized built bodies.now words.now numbers.now) rows.old).rows }
{
    let h = header(dt, length_unit, normalized, built);
    plain_number(remove_bias(h, bodies, words, numbers, rows))
}

#[unsafe(no_mangle)]
pub extern "C" fn katydidzinc_space_write_back(
    dt: f32,
    length_unit: f32,
    normalized: f32,
    built: u32,
    bodies: &[f32],
    words: &[u32],
    numbers: &mut [f32],
    rows: &[f32],
) -> u64
    ensures value { result ≡ number (run spatial write_back (lent dt length_unit normalized built bodies.now words.now numbers.old) rows.now).answer }
    ensures numbers_after { numbers.new ≡ (run spatial write_back (lent dt length_unit normalized built bodies.now words.now numbers.old) rows.now).after.numbers }
{
    let h = header(dt, length_unit, normalized, built);
    plain_number(write_back(h, bodies, words, numbers, rows))
}

// Rows and ids, stored where both slices have room; whether they have.
fn put_read(out: &mut [f32], ids: &mut [u32], made: Rows, named: RowIds) -> bool
    ensures value { result ≡ room_for_rows out.old ids.old }
    ensures out_after { out.new ≡ rows_if_room made out.old ids.old }
    ensures ids_after { ids.new ≡ ids_if_room named out.old ids.old }
{
    if out.len() < READ_NUMBERS || ids.len() < READ_IDS {
        return false;
    }
    put_first(out, made);
    put_ids(ids, named);
    true
}

#[unsafe(no_mangle)]
pub extern "C" fn katydidzinc_space_read_rows(
    dt: f32,
    length_unit: f32,
    normalized: f32,
    built: u32,
    bodies: &[f32],
    words: &[u32],
    numbers: &[f32],
    rows: &[f32],
    joint: u32,
    out: &mut [f32],
    ids: &mut [u32],
) -> u64
    ensures value { result ≡ rows_number (rows_read_at joint (lent dt length_unit normalized built bodies.now words.now numbers.now) rows.now) out.old ids.old }
    ensures out_after { out.new ≡ rows_out (rows_read_at joint (lent dt length_unit normalized built bodies.now words.now numbers.now) rows.now) out.old ids.old }
    ensures ids_after { ids.new ≡ ids_out (rows_read_at joint (lent dt length_unit normalized built bodies.now words.now numbers.now) rows.now) out.old ids.old }
{
    let h = header(dt, length_unit, normalized, built);
    match read_rows(h, bodies, words, numbers, rows, joint) {
        Ok((named, made)) => {
            let stored = put_read(out, ids, made, named);
            rows_number(made.len, stored)
        }
        Err(refused) => refused.number() as u64,
    }
}

// A velocity, stored where the slice has room; the read's answer.
fn put_velocity(out: &mut [f32], v: SolverVel) -> u64
    ensures value { result ≡ room_for_velocity out.old }
    ensures out_after { out.new ≡ put_velocity v out.old }
{
    if out.len() < VELOCITY_NUMBERS {
        return SHORT_SLICE;
    }
    put_three(out, 0, v.linear.x, v.linear.y, v.linear.z);
    put_three(out, 3, v.angular.x, v.angular.y, v.angular.z);
    0
}

#[unsafe(no_mangle)]
pub extern "C" fn katydidzinc_space_read_velocity(
    dt: f32,
    length_unit: f32,
    normalized: f32,
    built: u32,
    bodies: &[f32],
    words: &[u32],
    numbers: &[f32],
    body: u32,
    out: &mut [f32],
) -> u64
    ensures value { result ≡ velocity_number (run spatial (read_velocity body) (lent dt length_unit normalized built bodies.now words.now numbers.now) []).answer out.old }
    ensures out_after { out.new ≡ velocity_out (run spatial (read_velocity body) (lent dt length_unit normalized built bodies.now words.now numbers.now) []).answer out.old }
{
    let h = header(dt, length_unit, normalized, built);
    match read_velocity(h, bodies, words, numbers, body) {
        Ok(v) => put_velocity(out, v),
        Err(refused) => refused.number() as u64,
    }
}
