// What can be said of the calls of a study without a run: the first that would be refused whatever the numbers are, and a table of targets that is not there.
use crate::place::Study;
use crate::refusals::say_rule;
use crate::run::Stop;
use crate::targets::find_targets;
use floats::pose::Pose;
use floats::scalar::is_finite;
use multibody::refusal::Refusal;
use rows::generic_joint::Masks;
use study_reader::words::{Word, next_word};
use study_run::acts::{Act, StudyCall, act_at};
use study_run::places::{Place, place_after};

// Where the next line is, and whether the rows stand.
#[derive(Clone, Copy)]
struct Plan {
    at: usize,
    built: bool,
}

// ---- the rules that can be held to a call before a run

fn held(rule: Refusal, holds: bool) -> Result<(), Refusal> {
    if holds { Ok(()) } else { Err(rule) }
}

fn held_warm(warmstart: Option<f32>) -> Result<(), Refusal> {
    match warmstart {
        Some(x) => held(Refusal::NotFinite, is_finite(x)),
        None => Ok(()),
    }
}

fn held_sweep(rounds: u32, built: bool) -> Result<(), Refusal> {
    held(Refusal::TooManyRounds, rounds <= 64)?;
    held(Refusal::NotBuilt, built)
}

fn held_build(warmstart: Option<f32>, substep: u32, built: bool) -> Result<(), Refusal> {
    held_warm(warmstart)?;
    held(
        Refusal::NotBuilt,
        built || substep == 0 || warmstart.is_none(),
    )
}

fn held_frame(warmstart: Option<f32>, sweeps: u32, substeps: u32) -> Result<(), Refusal> {
    held_warm(warmstart)?;
    held(Refusal::TooManyRounds, sweeps <= 64)?;
    held(Refusal::Substeps, matches!(substeps, 1..=16))
}

fn held_masks(m: Masks) -> Result<(), Refusal> {
    held(
        Refusal::MaskOutOfRange,
        m.locked_axes | m.limit_axes | m.motor_axes | m.coupled_axes <= 7,
    )
}

fn held_place(pose: Pose) -> Result<(), Refusal> {
    let at = pose.translation;
    let rotation = pose.rotation;
    held(
        Refusal::NotFinite,
        is_finite(at.x) && is_finite(at.y) && is_finite(rotation.re) && is_finite(rotation.im),
    )
}

// The rule that a call breaks whatever a run finds; of the others a run has to tell.
fn held_call(call: StudyCall, built: bool) -> Result<(), Refusal> {
    match call {
        StudyCall::Sweep(n) => held_sweep(n, built),
        StudyCall::Build(warmstart, substep) => held_build(warmstart, substep, built),
        StudyCall::Frame(warmstart, sweeps, n) => held_frame(warmstart, sweeps, n),
        StudyCall::Place(_, pose) => held_place(pose),
        StudyCall::SetMasks(_, m) => held_masks(m),
        StudyCall::Load | StudyCall::SetTargets(_, _) | StudyCall::ReadVelocity(_) => Ok(()),
        StudyCall::WarmStart
        | StudyCall::RemoveBias
        | StudyCall::WriteBack
        | StudyCall::Settle(_, _)
        | StudyCall::ReadRows(_)
        | StudyCall::Table(_) => held(Refusal::NotBuilt, built),
    }
}

fn built_after(call: StudyCall, built: bool) -> bool {
    match call {
        StudyCall::Load | StudyCall::SetMasks(_, _) => false,
        StudyCall::Build(_, _) | StudyCall::Frame(_, _, _) => true,
        _ => built,
    }
}

// ---- all calls

fn say_planned(study: Study, at: usize, refusal: Refusal) {
    let con = study.con;
    study.say_place(at);
    con.err(b"this call is refused with ");
    say_rule(con, refusal);
    con.err(b"\n");
    study.show_line(at);
}

// What ends the study at a call, told: the rule that it breaks, or a table of targets that is not there.
fn told(study: Study, at: usize, call: StudyCall, built: bool) -> Result<(), Stop> {
    if let StudyCall::SetTargets(start, end) = call {
        return find_targets(study, Word { start, end });
    }
    match held_call(call, built) {
        Ok(()) => Ok(()),
        Err(refusal) => {
            say_planned(study, next_word(study.text, at).start, refusal);
            Err(Stop::Refused(refusal))
        }
    }
}

// One line; what a `repeat` has in it comes once.
fn plan_line(study: Study, p: Plan) -> Result<Plan, Stop> {
    let st = study.st;
    let act = act_at(study.text, study.names, st.bodies, st.joints, p.at);
    let here = Place {
        at: p.at,
        first: 0,
        left: 0,
    };
    let next = place_after(study.text, study.names, st.bodies, st.joints, here, act);
    match act {
        Act::Call(call) => {
            told(study, p.at, call, p.built)?;
            Ok(Plan {
                at: next.at,
                built: built_after(call, p.built),
            })
        }
        _ => Ok(Plan {
            at: next.at,
            built: p.built,
        }),
    }
}

// As far as the first call that ends the study.
pub fn check_calls(study: Study) -> Result<(), Stop> {
    let mut p = Plan {
        at: study.st.calls,
        built: false,
    };
    for _ in 0..study.text.len() {
        if study.text.len() <= p.at {
            return Ok(());
        }
        p = plan_line(study, p)?;
    }
    Ok(())
}
