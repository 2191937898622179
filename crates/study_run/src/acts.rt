// What a line of calls asks for.
ghost use Rattle.std.specs.Prelude.{◌≡◌};
ghost use Rattle.study_run.specs.Acts.{warmstart_of, pose_of, act_of, act_at};

use floats::pose::Pose;
use floats::rotation_ops::Rotation;
use floats::vector::Vector;
use rows::generic_joint::Masks;
use study_reader::calls::{Line, read_call};
use study_reader::keywords::{
    BUILD, END, FRAME, LOAD, MASKS, PLACE, READ_ROWS, READ_VELOCITY, REMOVE_BIAS, REPEAT,
    SET_TARGETS, SETTLE, SWEEP, TABLE, WARM_START, WRITE_BACK, call_keyword,
};
use study_reader::words::{is_empty, next_word};

// A call: the model's, with their bodies, joints and numbers; a frame, by a warm coefficient or none, how many rounds and how many substeps; sweeps until no residual is above a
// tolerance, and the most of them; the motor table whose name stands from a place to a place; and what is printed: a joint's rows, a body's velocity, a table, as comma-separated
// values or not.
#[derive(Clone, Copy)]
pub enum StudyCall {
    Load,
    Place(u32, Pose),
    Build(Option<f32>, u32),
    WarmStart,
    Sweep(u32),
    RemoveBias,
    WriteBack,
    SetMasks(u32, Masks),
    Frame(Option<f32>, u32, u32),
    Settle(f32, u32),
    SetTargets(usize, usize),
    ReadRows(u32),
    ReadVelocity(u32),
    Table(bool),
}

// A call, `repeat` with its turns, `end`, or none of them, each a kind of line.
#[derive(Clone, Copy)]
pub enum Act {
    Nothing,
    Repeat(u32),
    End,
    Call(StudyCall),
}

fn warmstart_of(l: Line) -> Option<f32>
    ensures { result ≡ warmstart_of l }
{
    if l.warm { Some(l.x) } else { None }
}

fn pose_of(l: Line) -> Pose
    ensures { result ≡ pose_of l }
{
    Pose {
        rotation: Rotation { re: l.re, im: l.im },
        translation: Vector { x: l.x, y: l.y },
    }
}

#[tactic(auto, unfolding(crate::specs::Acts::act_of))]
pub fn act_of(l: Line) -> Act
    ensures { result ≡ act_of l }
{
    match l.keyword {
        REPEAT => Act::Repeat(l.number),
        END => Act::End,
        LOAD => Act::Call(StudyCall::Load),
        PLACE => Act::Call(StudyCall::Place(l.number, pose_of(l))),
        BUILD => Act::Call(StudyCall::Build(warmstart_of(l), l.number)),
        WARM_START => Act::Call(StudyCall::WarmStart),
        SWEEP => Act::Call(StudyCall::Sweep(l.number)),
        REMOVE_BIAS => Act::Call(StudyCall::RemoveBias),
        WRITE_BACK => Act::Call(StudyCall::WriteBack),
        MASKS => Act::Call(StudyCall::SetMasks(l.number, l.masks)),
        FRAME => Act::Call(StudyCall::Frame(warmstart_of(l), l.sweeps, l.number)),
        SETTLE => Act::Call(StudyCall::Settle(l.x, l.number)),
        SET_TARGETS => Act::Call(StudyCall::SetTargets(l.start, l.end)),
        READ_ROWS => Act::Call(StudyCall::ReadRows(l.number)),
        READ_VELOCITY => Act::Call(StudyCall::ReadVelocity(l.number)),
        TABLE => Act::Call(StudyCall::Table(l.csv)),
        _ => Act::Nothing,
    }
}

// The act of the line at a place, among so many bodies and joints.
pub fn act_at(text: &[u8], names: &[u32], body_count: u32, joint_count: u32, at: usize) -> Act
    ensures { result ≡ act_at text.now names.now body_count joint_count at }
{
    let w = next_word(text, at);
    if is_empty(w) {
        return Act::Nothing;
    }
    // A `repeat` is read where none is open, an `end` where one is: the text was read before.
    let open = call_keyword(text, w) == END;
    act_of(read_call(text, names, body_count, joint_count, open, w))
}
