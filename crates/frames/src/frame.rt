// A frame of a study that moves (document 02, R-12): substeps of the model's calls with a move in each, and all as it was where a new pose is not finite.
ghost use Rattle.std.specs.Prelude.{◌≡◌, ℕ, ◌≤◌, true};
ghost use Rattle.multibody.specs.Model.{most_bodies, most_joints};
ghost use Rattle.multibody.specs.Counts.{body_count, joint_count, Room};
ghost use Rattle.multibody.specs.Calls.{outcome};
ghost use Rattle.model.specs.Planar.{plane};
ghost use Rattle.model.specs.Model.{model_of};
ghost use Rattle.multibody.specs.Answers.{build_header, sweep_answer, Filled};
ghost use Rattle.frames.specs.Frames.{most_substeps, moment, progress, before_move, after_move, substep, steps_of, Reaches, OrBack, run_frame, frame_answer, frame_counts, header_with_dt, is_step};

use crate::moving::move_all;
use crate::saved::copy_first;
use floats::scalar::is_finite;
use model::calls::{MOST_ROUNDS, build, front_refusal, remove_bias, sweep, warm_start, write_back};
use multibody::header::Header;
use multibody::refusal::Refusal;
use rows::integration_parameters::IntegrationParameters;

// Rule 16: a frame has 1 to 16 substeps.
pub const MOST_SUBSTEPS: u32 = 16;

// As many numbers as the rows of 128 joints have, and as a storage of 128 bodies can.
const MANY_ROW_NUMBERS: usize = 13824;

const MANY_BODY_NUMBERS: usize = 1289;

// The same of 16, and as many words as a storage of 16 joints can have.
const FEW_ROW_NUMBERS: usize = 1728;

const FEW_BODY_NUMBERS: usize = 169;

const FEW_WORDS: usize = 203;

// The header after some substeps, and what their last sweep answered.
#[derive(Clone, Copy)]
pub struct Reached {
    pub header: Header,
    pub last: Result<[u8; 128], Refusal>,
}

// The header after a build.
fn built_header(header: Header, answer: Result<(Header, usize), Refusal>) -> Header
    ensures { result ≡ build_header header answer }
{
    match answer {
        Ok((h, _)) => h,
        Err(_) => header,
    }
}

// Build with the substep's number, warm start, sweep. No call within a frame is refused (`answers` in proofs/FrameRefused.antt).
fn before_move(
    header: Header,
    bodies: &mut [f32],
    words: &[u32],
    numbers: &[f32],
    rows: &mut [f32],
    warmstart: Option<f32>,
    sweeps: u32,
    i: u32,
) -> Header
    ensures { moment (model_of result bodies.new words.now numbers.now) rows.new ≡ before_move warmstart sweeps i (moment (model_of header bodies.old words.now numbers.now) rows.old) }
{
    let made = build(header, bodies, words, numbers, rows, warmstart, i);
    let h = built_header(header, made);
    let _ = warm_start(h, bodies, words, numbers, rows);
    let _ = sweep(h, bodies, words, numbers, rows, sweeps);
    h
}

// Remove bias, sweep.
fn after_move(
    header: Header,
    bodies: &mut [f32],
    words: &[u32],
    numbers: &[f32],
    rows: &mut [f32],
    sweeps: u32,
) -> Result<[u8; 128], Refusal>
    ensures result_after { progress true (moment (model_of header bodies.new words.now numbers.now) rows.new) (sweep_answer (joint_count plane words.now numbers.now) result) ≡ after_move sweeps (moment (model_of header bodies.old words.now numbers.now) rows.old) }
    ensures filled { Filled (joint_count plane words.now numbers.now) result }
{
    let _ = remove_bias(header, bodies, words, numbers, rows);
    sweep(header, bodies, words, numbers, rows, sweeps)
}

// One substep; none where a new pose is not finite.
fn one_substep(
    header: Header,
    bodies: &mut [f32],
    words: &[u32],
    numbers: &[f32],
    rows: &mut [f32],
    warmstart: Option<f32>,
    sweeps: u32,
    i: u32,
) -> Option<Reached>
    requires { body_count plane bodies.old ≤ most_bodies }
    ensures { Reaches (joint_count plane words.now numbers.now) result bodies.new words.now numbers.now rows.new (substep warmstart sweeps i (moment (model_of header bodies.old words.now numbers.now) rows.old)) }
{
    let h = before_move(header, bodies, words, numbers, rows, warmstart, sweeps, i);
    if !move_all(bodies, h.params.dt) {
        return None;
    }
    let last = after_move(h, bodies, words, numbers, rows, sweeps);
    Some(Reached { header: h, last })
}

// All n substeps, up to the first that meets a new pose which is not finite.
fn all_substeps(
    header: Header,
    bodies: &mut [f32],
    words: &[u32],
    numbers: &[f32],
    rows: &mut [f32],
    warmstart: Option<f32>,
    sweeps: u32,
    n: u32,
) -> Option<Reached>
    requires bodies_bound { body_count plane bodies.old ≤ most_bodies }
    requires n_le_most_substeps { n ≤ most_substeps }
    ensures { Reaches (joint_count plane words.now numbers.now) result bodies.new words.now numbers.now rows.new (steps_of warmstart sweeps n (moment (model_of header bodies.old words.now numbers.now) rows.old)) }
{
    let mut p = one_substep(header, bodies, words, numbers, rows, warmstart, sweeps, 0)?;
    for i in 1..n {
        p = one_substep(p.header, bodies, words, numbers, rows, warmstart, sweeps, i)?;
    }
    Some(p)
}

// The lesser of a length and of what the copy has room for.
fn room_of(len: usize, most: usize) -> usize
    ensures { (result ≤ len) × (result ≤ most) × ((t : ℕ) → t ≤ len → t ≤ most → t ≤ result) }
{
    if len < most { len } else { most }
}

// All n substeps; where a new pose is not finite, bodies and rows are put back as they were. There is room for a copy of 128 bodies and joints.
fn many_substeps_or_back(
    header: Header,
    bodies: &mut [f32],
    words: &[u32],
    numbers: &[f32],
    rows: &mut [f32],
    warmstart: Option<f32>,
    sweeps: u32,
    n: u32,
) -> Option<Reached>
    requires bodies_bound { body_count plane bodies.old ≤ most_bodies }
    requires numbers_bound { joint_count plane words.now numbers.now ≤ most_joints }
    requires room { Room plane (model_of header bodies.old words.now numbers.now) rows.old }
    requires n_le_most_substeps { n ≤ most_substeps }
    ensures { OrBack (joint_count plane words.now numbers.now) result bodies.new words.now numbers.now rows.new (steps_of warmstart sweeps n (moment (model_of header bodies.old words.now numbers.now) rows.old)) bodies.old rows.old }
{
    let row_numbers = room_of(rows.len(), MANY_ROW_NUMBERS);
    let body_numbers = room_of(bodies.len(), MANY_BODY_NUMBERS);
    let mut saved_rows = [0.0f32; 13824];
    copy_first(&mut saved_rows, rows, row_numbers);
    let mut saved_bodies = [0.0f32; 1289];
    copy_first(&mut saved_bodies, bodies, body_numbers);
    let Some(p) = all_substeps(header, bodies, words, numbers, rows, warmstart, sweeps, n) else {
        copy_first(rows, &saved_rows, row_numbers);
        copy_first(bodies, &saved_bodies, body_numbers);
        return None;
    };
    Some(p)
}

// The same with room for a copy of 16 bodies and joints, so that a small model does not pay for a large one's.
fn few_substeps_or_back(
    header: Header,
    bodies: &mut [f32],
    words: &[u32],
    numbers: &[f32],
    rows: &mut [f32],
    warmstart: Option<f32>,
    sweeps: u32,
    n: u32,
) -> Option<Reached>
    requires bodies_bound { body_count plane bodies.old ≤ 16 }
    requires numbers_bound { joint_count plane words.now numbers.now ≤ 16 }
    requires room { Room plane (model_of header bodies.old words.now numbers.now) rows.old }
    requires n_le_most_substeps { n ≤ most_substeps }
    ensures { OrBack (joint_count plane words.now numbers.now) result bodies.new words.now numbers.now rows.new (steps_of warmstart sweeps n (moment (model_of header bodies.old words.now numbers.now) rows.old)) bodies.old rows.old }
{
    let row_numbers = room_of(rows.len(), FEW_ROW_NUMBERS);
    let body_numbers = room_of(bodies.len(), FEW_BODY_NUMBERS);
    let mut few_rows = [0.0f32; 1728];
    copy_first(&mut few_rows, rows, row_numbers);
    let mut few_bodies = [0.0f32; 169];
    copy_first(&mut few_bodies, bodies, body_numbers);
    let Some(p) = all_substeps(header, bodies, words, numbers, rows, warmstart, sweeps, n) else {
        copy_first(rows, &few_rows, row_numbers);
        copy_first(bodies, &few_bodies, body_numbers);
        return None;
    };
    Some(p)
}

// All n substeps; where a new pose is not finite, bodies and rows are put back as they were.
fn substeps_or_back(
    header: Header,
    bodies: &mut [f32],
    words: &[u32],
    numbers: &[f32],
    rows: &mut [f32],
    warmstart: Option<f32>,
    sweeps: u32,
    n: u32,
) -> Option<Reached>
    requires bodies_bound { body_count plane bodies.old ≤ most_bodies }
    requires numbers_bound { joint_count plane words.now numbers.now ≤ most_joints }
    requires room { Room plane (model_of header bodies.old words.now numbers.now) rows.old }
    requires n_le_most_substeps { n ≤ most_substeps }
    ensures { OrBack (joint_count plane words.now numbers.now) result bodies.new words.now numbers.now rows.new (steps_of warmstart sweeps n (moment (model_of header bodies.old words.now numbers.now) rows.old)) bodies.old rows.old }
{
    if bodies.len() <= FEW_BODY_NUMBERS && words.len() <= FEW_WORDS {
        return few_substeps_or_back(header, bodies, words, numbers, rows, warmstart, sweeps, n);
    }
    many_substeps_or_back(header, bodies, words, numbers, rows, warmstart, sweeps, n)
}

// The header with another timestep.
fn with_dt(header: Header, dt: f32) -> Header
    ensures { result ≡ header_with_dt header dt }
{
    Header {
        params: IntegrationParameters {
            dt,
            ..header.params
        },
        ..header
    }
}

// A timestep that a build may have.
fn is_step(h: f32) -> bool
    ensures { result ≡ is_step h }
{
    is_finite(h) && !(h < 0.0)
}

// One frame of n substeps of dt/n, each with two sweeps of so many rounds: the header after it, and for each joint how many of its motor rows the last round found low or high. Refused, it leaves
// everything as it was, row storage too.
pub fn frame(
    header: Header,
    bodies: &mut [f32],
    words: &[u32],
    numbers: &mut [f32],
    rows: &mut [f32],
    warmstart: Option<f32>,
    sweeps: u32,
    n: u32,
) -> Result<(Header, [u8; 128]), Refusal>
    ensures rows_after { outcome (frame_answer (joint_count plane words.now numbers.old) result) (model_of (build_header header result) bodies.new words.now numbers.new) rows.new ≡ run_frame warmstart sweeps n (model_of header bodies.old words.now numbers.old) rows.old }
    ensures filled { Filled (joint_count plane words.now numbers.old) (frame_counts result) }
{
    front_refusal(header, bodies, words, numbers, rows, warmstart)?;
    if sweeps > MOST_ROUNDS {
        return Err(Refusal::TooManyRounds);
    }
    if n == 0 {
        return Err(Refusal::Substeps);
    }
    if n > MOST_SUBSTEPS {
        return Err(Refusal::Substeps);
    }
    let step = header.params.dt / std::num::nearest_u32_to_f32(n);
    if !is_step(step) {
        return Err(Refusal::NotFinite);
    }
    let h = with_dt(header, step);
    let Some(p) = substeps_or_back(h, bodies, words, numbers, rows, warmstart, sweeps, n) else {
        return Err(Refusal::NotFinite);
    };
    let _ = write_back(p.header, bodies, words, numbers, rows);
    let counts = p.last?;
    Ok((with_dt(p.header, header.params.dt), counts))
}
