// The model's calls for C, Rust and Python callers. A header is its three settings and the mark, a flag: 0 is
// false and every other word true. An answer is 64 bits wide. A refusal is its number; a granted call is 0, and a granted
// build or row read 2^32 plus its number of rows. A joint's rows and ids, and a body's velocity, are stored in slices of
// the caller's; where the model grants the read and one of these is too short, the answer says so and nothing
// is stored. A header that came back with the wrong mark would show as 100 after a load and as 2^33
// plus the number of rows after a build.
ghost use Rattle.std.specs.Prelude.{◌≡◌, [], ◌++◌, cond, ◌≤◌, length, drop};
ghost use Rattle.multibody.specs.Calls.{run};
ghost use Rattle.multibody.specs.Calls.Call.{load, place, build, warm_start, sweep, remove_bias, write_back, read_rows, read_velocity, set_masks, further};
ghost use Rattle.model.specs.Planar.{planar};
ghost use Rattle.multibody.specs.Answers.{refused_number};
ghost use Rattle.capi.specs.CallExports.{flag, header_of, lent, pose_from, masks_from, warm_of, number, loaded_number, built_number, marked_number, rows_read_at, rows_granted_or, rows_number, rows_out, ids_out, room_for_rows, rows_if_room, ids_if_room, short_slice, swept_at, counts_out, room_for_counts, room_for_velocity, velocity_number, put_velocity, velocity_out};

use crate::stored::{put_first, put_ids, put_three};
use floats::pose::Pose;
use floats::rotation_ops::Rotation;
use floats::vector::Vector;
use model::calls::{
    build, load, place, read_rows, read_velocity, remove_bias, set_masks, set_targets, sweep,
    warm_start, write_back,
};
use multibody::header::Header;
use multibody::refusal::Refusal;
use rows::generic_joint::Masks;
use rows::integration_parameters::IntegrationParameters;
use rows::joint_velocity_constraint::{Rows, SolverVel};
use rows::row_ids::RowIds;

// What a granted build or row read adds to its number of rows.
pub const ROWS_GRANTED: u64 = 4294967296;

// The answer where the model grants a read for which a slice has no room: a number above all refusals.
pub const SHORT_SLICE: u64 = 1000;

// What the slices of a row read have room for, however many rows there are; and those of a velocity read.
pub const READ_NUMBERS: usize = 108;

pub const READ_IDS: usize = 6;

pub const VELOCITY_NUMBERS: usize = 3;

pub fn flag_of(word: u32) -> bool
    ensures { result ≡ flag word }
{
    word != 0
}

pub fn header(dt: f32, length_unit: f32, normalized: f32, built: u32) -> Header
    ensures { result ≡ header_of dt length_unit normalized built }
{
    Header {
        params: IntegrationParameters {
            dt,
            length_unit,
            normalized_max_corrective_velocity: normalized,
        },
        built: flag_of(built),
    }
}

pub fn plain_number(answer: Result<(), Refusal>) -> u64
    ensures { result ≡ refused_number answer }
{
    match answer {
        Ok(()) => 0,
        Err(refused) => refused.number() as u64,
    }
}

// The mark that counts is that of the header that came back.
pub fn load_number(answer: Result<Header, Refusal>) -> u64
    ensures { result ≡ loaded_number answer }
{
    match answer {
        Ok(after) => { if after.built { 100 } else { 0 } }
        Err(refused) => refused.number() as u64,
    }
}

pub fn build_number(answer: Result<(Header, usize), Refusal>) -> u64
    ensures { result ≡ built_number answer }
{
    match answer {
        Ok((after, n)) => {
            let total = (n % 4294967296) as u64;
            if after.built {
                ROWS_GRANTED + total
            } else {
                8589934592 + total
            }
        }
        Err(refused) => refused.number() as u64,
    }
}

pub fn rows_number(n: usize, stored: bool) -> u64
    ensures { result ≡ rows_granted_or n stored }
{
    if stored {
        ROWS_GRANTED + (n % 4294967296) as u64
    } else {
        SHORT_SLICE
    }
}

pub fn warm_of(warm: u32, coefficient: f32) -> Option<f32>
    ensures { result ≡ warm_of warm coefficient }
{
    if flag_of(warm) {
        return Some(coefficient);
    }
    None
}

#[unsafe(no_mangle)]
pub extern "C" fn katydidzinc_load(
    dt: f32,
    length_unit: f32,
    normalized: f32,
    built: u32,
    bodies: &[f32],
    words: &mut [u32],
    numbers: &[f32],
    rows: &[f32],
) -> u64
    ensures value { result ≡ marked_number (run planar load (lent dt length_unit normalized built bodies.now words.old numbers.now) rows.now) }
    ensures words_after { words.new ≡ (run planar load (lent dt length_unit normalized built bodies.now words.old numbers.now) rows.now).after.words }
{
    let h = header(dt, length_unit, normalized, built);
    load_number(load(h, bodies, words, numbers, rows))
}

#[unsafe(no_mangle)]
pub extern "C" fn katydidzinc_set_masks(
    dt: f32,
    length_unit: f32,
    normalized: f32,
    built: u32,
    bodies: &[f32],
    words: &mut [u32],
    numbers: &[f32],
    rows: &[f32],
    joint: u32,
    locked: u32,
    limit: u32,
    motor: u32,
    coupled: u32,
) -> u64
    ensures value { result ≡ marked_number (run planar (set_masks joint (masks_from locked limit motor coupled)) (lent dt length_unit normalized built bodies.now words.old numbers.now) rows.now) }
    ensures words_after { words.new ≡ (run planar (set_masks joint (masks_from locked limit motor coupled)) (lent dt length_unit normalized built bodies.now words.old numbers.now) rows.now).after.words }
{
    let h = header(dt, length_unit, normalized, built);
    let masks = Masks {
        locked_axes: locked,
        limit_axes: limit,
        motor_axes: motor,
        coupled_axes: coupled,
    };
    load_number(set_masks(h, bodies, words, numbers, rows, joint, masks))
}

#[unsafe(no_mangle)]
pub extern "C" fn katydidzinc_place(
    dt: f32,
    length_unit: f32,
    normalized: f32,
    built: u32,
    bodies: &mut [f32],
    words: &[u32],
    numbers: &[f32],
    body: u32,
    re: f32,
    im: f32,
    x: f32,
    y: f32,
) -> u64
    ensures value { result ≡ number (run planar (place body (pose_from re im x y)) (lent dt length_unit normalized built bodies.old words.now numbers.now) []).answer }
    ensures bodies_after { bodies.new ≡ (run planar (place body (pose_from re im x y)) (lent dt length_unit normalized built bodies.old words.now numbers.now) []).after.bodies }
{
    let h = header(dt, length_unit, normalized, built);
    let pose = Pose {
        rotation: Rotation { re, im },
        translation: Vector { x, y },
    };
    plain_number(place(h, bodies, words, numbers, body, pose))
}

#[unsafe(no_mangle)]
pub extern "C" fn katydidzinc_build(
    dt: f32,
    length_unit: f32,
    normalized: f32,
    built: u32,
    bodies: &[f32],
    words: &[u32],
    numbers: &[f32],
    rows: &mut [f32],
    warm: u32,
    coefficient: f32,
    substep_id: u32,
) -> u64
    ensures value { result ≡ marked_number (run planar (build (warm_of warm coefficient) substep_id) (lent dt length_unit normalized built bodies.now words.now numbers.now) rows.old) }
    ensures rows_after { rows.new ≡ (run planar (build (warm_of warm coefficient) substep_id) (lent dt length_unit normalized built bodies.now words.now numbers.now) rows.old).rows }
{
    let h = header(dt, length_unit, normalized, built);
    let warmstart = warm_of(warm, coefficient);
    build_number(build(h, bodies, words, numbers, rows, warmstart, substep_id))
}

#[unsafe(no_mangle)]
pub extern "C" fn katydidzinc_warm_start(
    dt: f32,
    length_unit: f32,
    normalized: f32,
    built: u32,
    bodies: &mut [f32],
    words: &[u32],
    numbers: &[f32],
    rows: &[f32],
) -> u64
    ensures value { result ≡ number (run planar warm_start (lent dt length_unit normalized built bodies.old words.now numbers.now) rows.now).answer }
    ensures bodies_after { bodies.new ≡ (run planar warm_start (lent dt length_unit normalized built bodies.old words.now numbers.now) rows.now).after.bodies }
{
    let h = header(dt, length_unit, normalized, built);
    plain_number(warm_start(h, bodies, words, numbers, rows))
}

// The counts, stored.
pub fn put_counts(out: &mut [u8], counts: [u8; 128])
    requires { 128 ≤ length out.old }
    ensures { out.new ≡ counts ++ drop 128 out.old }
{
    out[..128].copy_from_slice(&counts);
}

// 128 bytes are lent for the counts, one a joint. Where there are fewer the answer says so, and nothing is done.
#[unsafe(no_mangle)]
pub extern "C" fn katydidzinc_sweep(
    dt: f32,
    length_unit: f32,
    normalized: f32,
    built: u32,
    bodies: &mut [f32],
    words: &[u32],
    numbers: &[f32],
    rows: &mut [f32],
    n: u32,
    counts: &mut [u8],
) -> u64
    ensures value { result ≡ cond (room_for_counts counts.old) (number (run planar (sweep n) (lent dt length_unit normalized built bodies.old words.now numbers.now) rows.old).answer) short_slice }
    ensures bodies_after { bodies.new ≡ cond (room_for_counts counts.old) (run planar (sweep n) (lent dt length_unit normalized built bodies.old words.now numbers.now) rows.old).after.bodies bodies.old }
    ensures rows_after { rows.new ≡ cond (room_for_counts counts.old) (run planar (sweep n) (lent dt length_unit normalized built bodies.old words.now numbers.now) rows.old).rows rows.old }
    ensures counts_after { counts.new ≡ cond (room_for_counts counts.old) (counts_out (swept_at n (lent dt length_unit normalized built bodies.old words.now numbers.now) rows.old) counts.old) counts.old }
{
    if counts.len() < 128 {
        return SHORT_SLICE;
    }
    let h = header(dt, length_unit, normalized, built);
    match sweep(h, bodies, words, numbers, rows, n) {
        Ok(made) => {
            put_counts(counts, made);
            0
        }
        Err(refused) => refused.number() as u64,
    }
}

#[unsafe(no_mangle)]
pub extern "C" fn katydidzinc_remove_bias(
    dt: f32,
    length_unit: f32,
    normalized: f32,
    built: u32,
    bodies: &[f32],
    words: &[u32],
    numbers: &[f32],
    rows: &mut [f32],
) -> u64
    ensures value { result ≡ number (run planar remove_bias (lent dt length_unit normalized built bodies.now words.now numbers.now) rows.old).answer }
    ensures rows_after { rows.new ≡ (run planar remove_bias (lent dt length_unit normalized built bodies.now words.now numbers.now) rows.old).rows }
{
    let h = header(dt, length_unit, normalized, built);
    plain_number(remove_bias(h, bodies, words, numbers, rows))
}

#[unsafe(no_mangle)]
pub extern "C" fn katydidzinc_write_back(
    dt: f32,
    length_unit: f32,
    normalized: f32,
    built: u32,
    bodies: &[f32],
    words: &[u32],
    numbers: &mut [f32],
    rows: &[f32],
) -> u64
    ensures value { result ≡ number (run planar write_back (lent dt length_unit normalized built bodies.now words.now numbers.old) rows.now).answer }
    ensures numbers_after { numbers.new ≡ (run planar write_back (lent dt length_unit normalized built bodies.now words.now numbers.old) rows.now).after.numbers }
{
    let h = header(dt, length_unit, normalized, built);
    plain_number(write_back(h, bodies, words, numbers, rows))
}

// Rows and ids, stored where both slices have room; whether they have.
fn put_read(out: &mut [f32], ids: &mut [u32], made: Rows, named: RowIds) -> bool
    ensures value { result ≡ room_for_rows out.old ids.old }
    ensures out_after { out.new ≡ rows_if_room made out.old ids.old }
    ensures ids_after { ids.new ≡ ids_if_room named out.old ids.old }
{
    if out.len() < READ_NUMBERS || ids.len() < READ_IDS {
        return false;
    }
    put_first(out, made);
    put_ids(ids, named);
    true
}

#[unsafe(no_mangle)]
pub extern "C" fn katydidzinc_read_rows(
    dt: f32,
    length_unit: f32,
    normalized: f32,
    built: u32,
    bodies: &[f32],
    words: &[u32],
    numbers: &[f32],
    rows: &[f32],
    joint: u32,
    out: &mut [f32],
    ids: &mut [u32],
) -> u64
    ensures value { result ≡ rows_number (rows_read_at joint (lent dt length_unit normalized built bodies.now words.now numbers.now) rows.now) out.old ids.old }
    ensures out_after { out.new ≡ rows_out (rows_read_at joint (lent dt length_unit normalized built bodies.now words.now numbers.now) rows.now) out.old ids.old }
    ensures ids_after { ids.new ≡ ids_out (rows_read_at joint (lent dt length_unit normalized built bodies.now words.now numbers.now) rows.now) out.old ids.old }
{
    let h = header(dt, length_unit, normalized, built);
    match read_rows(h, bodies, words, numbers, rows, joint) {
        Ok((named, made)) => {
            let stored = put_read(out, ids, made, named);
            rows_number(made.len, stored)
        }
        Err(refused) => refused.number() as u64,
    }
}

// A velocity, stored where the slice has room; the read's answer.
fn put_velocity(out: &mut [f32], v: SolverVel) -> u64
    ensures value { result ≡ room_for_velocity out.old }
    ensures out_after { out.new ≡ put_velocity v out.old }
{
    if out.len() < VELOCITY_NUMBERS {
        return SHORT_SLICE;
    }
    put_three(out, 0, v.linear.x, v.linear.y, v.angular);
    0
}

#[unsafe(no_mangle)]
pub extern "C" fn katydidzinc_read_velocity(
    dt: f32,
    length_unit: f32,
    normalized: f32,
    built: u32,
    bodies: &[f32],
    words: &[u32],
    numbers: &[f32],
    body: u32,
    out: &mut [f32],
) -> u64
    ensures value { result ≡ velocity_number (run planar (read_velocity body) (lent dt length_unit normalized built bodies.now words.now numbers.now) []).answer out.old }
    ensures out_after { out.new ≡ velocity_out (run planar (read_velocity body) (lent dt length_unit normalized built bodies.now words.now numbers.now) []).answer out.old }
{
    let h = header(dt, length_unit, normalized, built);
    match read_velocity(h, bodies, words, numbers, body) {
        Ok(v) => put_velocity(out, v),
        Err(refused) => refused.number() as u64,
    }
}

// A motor table's bytes.
#[unsafe(no_mangle)]
pub extern "C" fn katydidzinc_set_targets(
    dt: f32,
    length_unit: f32,
    normalized: f32,
    built: u32,
    bodies: &[f32],
    words: &[u32],
    numbers: &mut [f32],
    table: &[u8],
) -> u64
    ensures value { result ≡ number (run planar (further table.now) (lent dt length_unit normalized built bodies.now words.now numbers.old) []).answer }
    ensures numbers_after { numbers.new ≡ (run planar (further table.now) (lent dt length_unit normalized built bodies.now words.now numbers.old) []).after.numbers }
{
    let h = header(dt, length_unit, normalized, built);
    plain_number(set_targets(h, bodies, words, numbers, table))
}
