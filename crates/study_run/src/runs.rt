// A call of a study on lent storage. Each takes whatever it is lent; a refused call changes nothing but, where rows would have been made anew, that no round was swept.
// The model's slices are lent one by one: the borrow of each says whether a call may write it.
ghost use Rattle.std.specs.Prelude.{◌≡◌};
ghost use Rattle.multibody.specs.Calls.{run};
ghost use Rattle.multibody.specs.Calls.Call.{load, place, build, warm_start, sweep, remove_bias, write_back, read_rows, read_velocity, set_masks, further};
ghost use Rattle.model.specs.Planar.{planar};
ghost use Rattle.model.specs.Model.{model_of};
ghost use Rattle.multibody.specs.Answers.{refused_number};
ghost use Rattle.frames.specs.Studies.{plain, frame};
ghost use Rattle.study_run.specs.Study.{study_of, ran_of, numbered, granted_reply, rows_reply, velocity_reply};
ghost use Rattle.study_run.specs.ModelCalls.{run_model_call};
ghost use Rattle.study_run.specs.Runs.{first_refused, table_reply};

use crate::motors::{Motors, found, kept};
use floats::pose::Pose;
use frames::frame::frame;
use model::calls::{
    build, load, place, read_rows, read_velocity, remove_bias, set_masks, set_targets, sweep,
    warm_start, write_back,
};
use multibody::header::Header;
use multibody::refusal::Refusal;
use rows::generic_joint::Masks;
use rows::joint_velocity_constraint::SolverVel;

// What a granted call says: no more than that; what is to be printed, a joint's rows, a body's velocity, a table as comma-separated values or not, or after how many rounds the rows are
// settled or not; or which motor table is to be read, by where its name starts and ends.
#[derive(Clone, Copy)]
pub enum Reply {
    Granted,
    Rows(u32),
    Velocity(u32, SolverVel),
    Table(bool),
    Settled(bool, u32),
    Targets(usize, usize),
}

// What a call says, and what it leaves that is by value.
#[derive(Clone, Copy)]
pub struct Done {
    pub reply: Result<Reply, Refusal>,
    pub header: Header,
    pub motors: Motors,
}

// What is said of a call of the model where it is granted, whatever it grants.
fn granted<T: Copy>(answer: Result<T, Refusal>, reply: Reply) -> Result<Reply, Refusal>
    ensures { result ≡ granted_reply answer reply }
{
    match answer {
        Ok(_) => Ok(reply),
        Err(refusal) => Err(refusal),
    }
}

// ---- the model's calls

pub fn run_load(
    header: Header,
    bodies: &[f32],
    words: &mut [u32],
    numbers: &[f32],
    rows: &[f32],
    motors: Motors,
) -> Done
    ensures { ran_of result bodies.now words.new numbers.now rows.now ≡ run_model_call (plain load) (study_of header motors bodies.now words.old numbers.now rows.now) }
{
    let answer = load(header, bodies, words, numbers, rows);
    Done {
        reply: granted(answer, Reply::Granted),
        header: answer.unwrap_or(header),
        motors: None,
    }
}

pub fn run_masks(
    header: Header,
    bodies: &[f32],
    words: &mut [u32],
    numbers: &[f32],
    rows: &[f32],
    motors: Motors,
    joint: u32,
    masks: Masks,
) -> Done
    ensures { ran_of result bodies.now words.new numbers.now rows.now ≡ run_model_call (plain (set_masks joint masks)) (study_of header motors bodies.now words.old numbers.now rows.now) }
{
    let answer = set_masks(header, bodies, words, numbers, rows, joint, masks);
    Done {
        reply: granted(answer, Reply::Granted),
        header: answer.unwrap_or(header),
        motors: None,
    }
}

pub fn run_build(
    header: Header,
    bodies: &[f32],
    words: &[u32],
    numbers: &[f32],
    rows: &mut [f32],
    motors: Motors,
    warmstart: Option<f32>,
    substep: u32,
) -> Done
    ensures { ran_of result bodies.now words.now numbers.now rows.new ≡ run_model_call (plain (build warmstart substep)) (study_of header motors bodies.now words.now numbers.now rows.old) }
{
    match build(header, bodies, words, numbers, rows, warmstart, substep) {
        Ok((built, _)) => Done {
            reply: Ok(Reply::Granted),
            header: built,
            motors: None,
        },
        Err(refusal) => Done {
            reply: Err(refusal),
            header,
            motors: None,
        },
    }
}

pub fn run_place(
    header: Header,
    bodies: &mut [f32],
    words: &[u32],
    numbers: &[f32],
    rows: &[f32],
    motors: Motors,
    body: u32,
    pose: Pose,
) -> Done
    ensures { ran_of result bodies.new words.now numbers.now rows.now ≡ run_model_call (plain (place body pose)) (study_of header motors bodies.old words.now numbers.now rows.now) }
{
    Done {
        reply: granted(
            place(header, bodies, words, numbers, body, pose),
            Reply::Granted,
        ),
        header,
        motors,
    }
}

pub fn run_warm_start(
    header: Header,
    bodies: &mut [f32],
    words: &[u32],
    numbers: &[f32],
    rows: &[f32],
    motors: Motors,
) -> Done
    ensures { ran_of result bodies.new words.now numbers.now rows.now ≡ run_model_call (plain warm_start) (study_of header motors bodies.old words.now numbers.now rows.now) }
{
    Done {
        reply: granted(
            warm_start(header, bodies, words, numbers, rows),
            Reply::Granted,
        ),
        header,
        motors,
    }
}

pub fn run_sweep(
    header: Header,
    bodies: &mut [f32],
    words: &[u32],
    numbers: &[f32],
    rows: &mut [f32],
    motors: Motors,
    n: u32,
) -> Done
    ensures { ran_of result bodies.new words.now numbers.now rows.new ≡ run_model_call (plain (sweep n)) (study_of header motors bodies.old words.now numbers.now rows.old) }
{
    let swept = sweep(header, bodies, words, numbers, rows, n);
    Done {
        reply: granted(swept, Reply::Granted),
        header,
        motors: kept(n, found(swept), motors),
    }
}

pub fn run_remove_bias(
    header: Header,
    bodies: &[f32],
    words: &[u32],
    numbers: &[f32],
    rows: &mut [f32],
    motors: Motors,
) -> Done
    ensures { ran_of result bodies.now words.now numbers.now rows.new ≡ run_model_call (plain remove_bias) (study_of header motors bodies.now words.now numbers.now rows.old) }
{
    Done {
        reply: granted(
            remove_bias(header, bodies, words, numbers, rows),
            Reply::Granted,
        ),
        header,
        motors,
    }
}

pub fn run_write_back(
    header: Header,
    bodies: &[f32],
    words: &[u32],
    numbers: &mut [f32],
    rows: &[f32],
    motors: Motors,
) -> Done
    ensures { ran_of result bodies.now words.now numbers.new rows.now ≡ run_model_call (plain write_back) (study_of header motors bodies.now words.now numbers.old rows.now) }
{
    Done {
        reply: granted(
            write_back(header, bodies, words, numbers, rows),
            Reply::Granted,
        ),
        header,
        motors,
    }
}

pub fn run_frame(
    header: Header,
    bodies: &mut [f32],
    words: &[u32],
    numbers: &mut [f32],
    rows: &mut [f32],
    motors: Motors,
    warmstart: Option<f32>,
    sweeps: u32,
    n: u32,
) -> Done
    ensures { ran_of result bodies.new words.now numbers.new rows.new ≡ run_model_call (frame warmstart sweeps n) (study_of header motors bodies.old words.now numbers.old rows.old) }
{
    match frame(header, bodies, words, numbers, rows, warmstart, sweeps, n) {
        Ok(made) => {
            let counts = made.1;
            Done {
                reply: Ok(Reply::Granted),
                header: made.0,
                motors: kept(sweeps, counts, None),
            }
        }
        Err(refusal) => Done {
            reply: Err(refusal),
            header,
            motors: kept(sweeps, [0; 128], None),
        },
    }
}

// The bytes of a motor table, where a call asked for one.
pub fn run_targets(
    header: Header,
    bodies: &[f32],
    words: &[u32],
    numbers: &mut [f32],
    rows: &[f32],
    motors: Motors,
    table: &[u8],
) -> Done
    ensures { ran_of result bodies.now words.now numbers.new rows.now ≡ run_model_call (plain (further table.now)) (study_of header motors bodies.now words.now numbers.old rows.now) }
{
    Done {
        reply: granted(
            set_targets(header, bodies, words, numbers, table),
            Reply::Granted,
        ),
        header,
        motors,
    }
}

// ---- what is printed

pub fn rows_reply(
    header: Header,
    bodies: &[f32],
    words: &[u32],
    numbers: &[f32],
    rows: &[f32],
    joint: u32,
) -> Result<Reply, Refusal>
    ensures { numbered result ≡ rows_reply joint (run planar (read_rows joint) (model_of header bodies.now words.now numbers.now) rows.now).answer }
{
    granted(
        read_rows(header, bodies, words, numbers, rows, joint),
        Reply::Rows(joint),
    )
}

pub fn velocity_reply(
    header: Header,
    bodies: &[f32],
    words: &[u32],
    numbers: &[f32],
    rows: &[f32],
    body: u32,
) -> Result<Reply, Refusal>
    ensures { numbered result ≡ velocity_reply body (run planar (read_velocity body) (model_of header bodies.now words.now numbers.now) rows.now).answer }
{
    let v = read_velocity(header, bodies, words, numbers, body)?;
    Ok(Reply::Velocity(body, v))
}

// The refusal of the first joint whose rows cannot be read.
fn first_refused(
    header: Header,
    bodies: &[f32],
    words: &[u32],
    numbers: &[f32],
    rows: &[f32],
    joints: u32,
) -> Result<(), Refusal>
    ensures { refused_number result ≡ first_refused (model_of header bodies.now words.now numbers.now) rows.now 0 joints }
{
    for j in 0..joints {
        read_rows(header, bodies, words, numbers, rows, j)?;
    }
    Ok(())
}

pub fn table_reply(
    header: Header,
    bodies: &[f32],
    words: &[u32],
    numbers: &[f32],
    rows: &[f32],
    motors: Motors,
    joints: u32,
    csv: bool,
) -> Result<Reply, Refusal>
    ensures { numbered result ≡ table_reply joints csv (study_of header motors bodies.now words.now numbers.now rows.now) }
{
    if !header.built {
        return Err(Refusal::NotBuilt);
    }
    first_refused(header, bodies, words, numbers, rows, joints)?;
    Ok(Reply::Table(csv))
}
