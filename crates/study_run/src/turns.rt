// One line of a study's calls: what it asks for is run on lent storage, and the place of the line that comes next.
ghost use Rattle.std.specs.Prelude.{◌≡◌};
ghost use Rattle.study_run.specs.Study.{study_of, ran_of};
ghost use Rattle.study_run.specs.Runs.{run_call};
ghost use Rattle.study_run.specs.Turns.{turned_of, acted_on, turn_of};

use crate::acts::{Act, StudyCall, act_at};
use crate::motors::Motors;
use crate::places::{Place, place_after};
use crate::runs::{
    Done, Reply, rows_reply, run_build, run_frame, run_load, run_masks, run_place, run_remove_bias,
    run_sweep, run_warm_start, run_write_back, table_reply, velocity_reply,
};
use crate::settling::run_settle;
use multibody::header::Header;
use multibody::refusal::Refusal;

// The text is at its end; a line that is no call; what a call said.
#[derive(Clone, Copy)]
pub enum Told {
    Over,
    Passed,
    Called(Result<Reply, Refusal>),
}

#[derive(Clone, Copy)]
pub struct Turned {
    pub told: Told,
    pub place: Place,
    pub header: Header,
    pub motors: Motors,
}

// A call, among so many joints.
pub fn run_call(
    call: StudyCall,
    header: Header,
    bodies: &mut [f32],
    words: &mut [u32],
    numbers: &mut [f32],
    rows: &mut [f32],
    motors: Motors,
    joints: u32,
) -> Done
    ensures { ran_of result bodies.new words.new numbers.new rows.new ≡ run_call joints call (study_of header motors bodies.old words.old numbers.old rows.old) }
{
    match call {
        StudyCall::Load => run_load(header, bodies, words, numbers, rows, motors),
        StudyCall::Place(body, pose) => {
            run_place(header, bodies, words, numbers, rows, motors, body, pose)
        }
        StudyCall::Build(warmstart, substep) => run_build(
            header, bodies, words, numbers, rows, motors, warmstart, substep,
        ),
        StudyCall::WarmStart => run_warm_start(header, bodies, words, numbers, rows, motors),
        StudyCall::Sweep(n) => run_sweep(header, bodies, words, numbers, rows, motors, n),
        StudyCall::RemoveBias => run_remove_bias(header, bodies, words, numbers, rows, motors),
        StudyCall::WriteBack => run_write_back(header, bodies, words, numbers, rows, motors),
        StudyCall::SetMasks(joint, masks) => run_masks(
            header, bodies, words, numbers, rows, motors, joint, masks,
        ),
        StudyCall::Frame(warmstart, sweeps, n) => run_frame(
            header, bodies, words, numbers, rows, motors, warmstart, sweeps, n,
        ),
        StudyCall::Settle(tolerance, most) => run_settle(
            header, bodies, words, numbers, rows, motors, joints, tolerance, most,
        ),
        StudyCall::SetTargets(from, to) => Done {
            reply: Ok(Reply::Targets(from, to)),
            header,
            motors,
        },
        StudyCall::ReadRows(joint) => Done {
            reply: rows_reply(header, bodies, words, numbers, rows, joint),
            header,
            motors,
        },
        StudyCall::ReadVelocity(body) => Done {
            reply: velocity_reply(header, bodies, words, numbers, rows, body),
            header,
            motors,
        },
        StudyCall::Table(csv) => Done {
            reply: table_reply(header, bodies, words, numbers, rows, motors, joints, csv),
            header,
            motors,
        },
    }
}

// An act, with the place after it.
fn act_on(
    act: Act,
    next: Place,
    header: Header,
    bodies: &mut [f32],
    words: &mut [u32],
    numbers: &mut [f32],
    rows: &mut [f32],
    motors: Motors,
    joints: u32,
) -> Turned
    ensures { turned_of result bodies.new words.new numbers.new rows.new ≡ acted_on joints act next (study_of header motors bodies.old words.old numbers.old rows.old) }
{
    match act {
        Act::Nothing | Act::Repeat(_) | Act::End => Turned {
            told: Told::Passed,
            place: next,
            header,
            motors,
        },
        Act::Call(call) => {
            let done = run_call(call, header, bodies, words, numbers, rows, motors, joints);
            Turned {
                told: Told::Called(done.reply),
                place: next,
                header: done.header,
                motors: done.motors,
            }
        }
    }
}

// The line at a place, among so many bodies and joints.
pub fn turn(
    text: &[u8],
    names: &[u32],
    body_count: u32,
    joint_count: u32,
    place: Place,
    header: Header,
    bodies: &mut [f32],
    words: &mut [u32],
    numbers: &mut [f32],
    rows: &mut [f32],
    motors: Motors,
) -> Turned
    ensures { turned_of result bodies.new words.new numbers.new rows.new ≡ turn_of text.now names.now body_count joint_count place (study_of header motors bodies.old words.old numbers.old rows.old) }
{
    if text.len() <= place.at {
        return Turned {
            told: Told::Over,
            place,
            header,
            motors,
        };
    }
    let act = act_at(text, names, body_count, joint_count, place.at);
    let next = place_after(text, names, body_count, joint_count, place, act);
    act_on(
        act,
        next,
        header,
        bodies,
        words,
        numbers,
        rows,
        motors,
        joint_count,
    )
}
