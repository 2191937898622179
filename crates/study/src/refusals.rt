// A refused call: its rule in words, and where the model broke it (`refusal_place`), with the line that gave it.
use crate::out::Console;
use crate::place::Study;
use model::layout::{BODY_WIDTH, NUMBERS_WIDTH, WORDS_WIDTH};
use model::refusal_place::{Place, refusal_place};
use multibody::refusal::Refusal;
use study_reader::names::{body_name, joint_name};
use study_reader::storage::{BODIES, JOINTS, MOST, NUMBERS, kept, word_at};
use study_reader::words::{Word, column_of, line_of};

// The rule that a refusal stands for: what has to hold. (The last is of joints in space, which no study has.)
fn rule_of(refusal: Refusal) -> &'static [u8] {
    match refusal {
        Refusal::TooManyBodies => b"a model has at most 128 bodies",
        Refusal::TooManyJoints => b"a model has at most 128 joints",
        Refusal::MaskOutOfRange => b"a mask is at most 7",
        Refusal::NoSuchBody => b"a joint's bodies are present, or the world",
        Refusal::SameBodies => b"a joint's two bodies differ, the world included",
        Refusal::NotFinite =>
            b"poses, masses, inertia, settings, centres, frames, softness, motor numbers, limit ends, warm coefficients and the poses that a frame gives are finite (limit ends and maximum forces may be infinite)",
        Refusal::NegativeDt => b"dt is not below zero",
        Refusal::NoRoom => b"row storage holds the total count",
        Refusal::TooManyRounds => b"a sweep has at most 64 rounds",
        Refusal::NotBuilt =>
            b"a build comes before this call (or before a build with a warm coefficient and a substep above 0)",
        Refusal::NoSuchIndex => b"a joint or body that is asked for by index is present",
        Refusal::AngleTooLarge => b"a typed angle of a centre is at most 1024 in size",
        Refusal::TableBroken =>
            b"a motor table keeps RFC 4180's grammar and has at most 4096 records",
        Refusal::NotThreeNumbers =>
            b"a record of a motor table is three whole numbers, each at most 8000000 in size",
        Refusal::NoSuchAxis => b"the joint and axis of a record of a motor table are present",
        Refusal::Substeps => b"a frame has 1 to 16 substeps",
        Refusal::NotLinearAlone => b"",
    }
}

// A refusal's number and its rule.
pub fn say_rule(con: &Console, refusal: Refusal) {
    con.err_number(refusal.number() as u64);
    con.err(b": ");
    con.err(rule_of(refusal));
}

// The place in the same file, and the line itself below.
fn say_given(study: Study, at: usize) {
    let con = study.con;
    con.err(b", line ");
    con.err_number(line_of(study.text, at));
    con.err(b", column ");
    con.err_number(column_of(study.text, at));
    con.err(b"\n");
    study.show_line(at);
}

fn say_line(study: Study, at: u32) {
    if at == 0 {
        study.con.err(b", by default\n");
    } else {
        say_given(study, at as usize);
    }
}

fn say_name(study: Study, what: &[u8], w: Word) {
    study.con.err(what);
    study.con.err_part(study.text, w.start, w.end);
}

// ---- rules 1 and 2

fn say_last_body(study: Study) {
    let w = body_name(study.names, 128);
    say_name(study, b"body ", w);
    say_line(study, kept(w.start));
}

fn say_last_joint(study: Study) {
    let w = joint_name(study.names, 128);
    say_name(study, b"joint ", w);
    say_line(study, kept(w.start));
}

// ---- a place in the model

const SETTINGS: [&[u8]; 3] = [b"dt", b"length_unit", b"normalized_max_corrective_velocity"];

const BODY_PLACES: [&[u8]; 7] = [
    b"rotation, first number",
    b"rotation, second number",
    b"position x",
    b"position y",
    b"inverse inertia",
    b"inverse mass along x",
    b"inverse mass along y",
];

const MASKS: [&[u8]; 4] = [b"lock", b"limit", b"motor", b"couple"];

const AXES: [&[u8]; 3] = [b" x", b" y", b" angle"];

const FRAME_PLACES: [&[u8]; 8] = [
    b"frame1_rotation, first number",
    b"frame1_rotation, second number",
    b"frame1 x",
    b"frame1 y",
    b"frame2_rotation, first number",
    b"frame2_rotation, second number",
    b"frame2 x",
    b"frame2 y",
];

const MOTOR_PLACES: [&[u8]; 6] = [
    b"target_velocity",
    b"target_position",
    b"stiffness",
    b"damping",
    b"max_force",
    b"motor_impulse",
];

const SOFTNESS: [&[u8]; 2] = [b"natural_frequency", b"damping_ratio"];

// A joint's two bodies have no word of their own.
fn say_word_place(con: &Console, p: usize) {
    if 2 <= p {
        con.err(b", ");
        con.err_entry(&MASKS, p - 2);
    }
}

fn say_joint_place(con: &Console, p: usize) {
    match p {
        0..=7 => con.err_entry(&FRAME_PLACES, p),
        8..=16 => {
            con.err(b"limits");
            con.err_entry(&AXES, (p - 8) / 3);
        }
        17..=34 => {
            con.err_entry(&MOTOR_PLACES, (p - 17) % 6);
            con.err_entry(&AXES, (p - 17) / 6);
        }
        35..=36 => con.err_entry(&SOFTNESS, p - 35),
        _ => con.err(b"center"),
    }
}

fn say_setting(study: Study, i: usize) {
    if i < BODIES {
        study.con.err(b"settings, ");
        study.con.err_entry(&SETTINGS, i);
        say_line(study, word_at(study.origins, i));
    }
}

fn say_body_number(study: Study, i: usize, p: usize) {
    if i < MOST as usize && p < BODY_WIDTH {
        say_name(study, b"body ", body_name(study.names, i as u32));
        study.con.err(b", ");
        study.con.err_entry(&BODY_PLACES, p);
        say_line(study, word_at(study.origins, BODIES + BODY_WIDTH * i + p));
    }
}

fn say_joint_word(study: Study, j: usize, p: usize) {
    if j < MOST as usize && p < WORDS_WIDTH {
        say_name(study, b"joint ", joint_name(study.names, j as u32));
        say_word_place(study.con, p);
        say_line(study, word_at(study.origins, NUMBERS + WORDS_WIDTH * j + p));
    }
}

fn say_joint_number(study: Study, j: usize, p: usize) {
    if j < MOST as usize && p < NUMBERS_WIDTH {
        say_name(study, b"joint ", joint_name(study.names, j as u32));
        study.con.err(b", ");
        say_joint_place(study.con, p);
        say_line(
            study,
            word_at(study.origins, JOINTS + NUMBERS_WIDTH * j + p),
        );
    }
}

fn say_in(study: Study, place: Place) {
    match place {
        Place::Setting(i) => say_setting(study, i),
        Place::BodyNumber(i, p) => say_body_number(study, i, p),
        Place::JointWord(j, p) => say_joint_word(study, j, p),
        Place::JointNumber(j, p) => say_joint_number(study, j, p),
    }
}

// Where a model broke its rule, or the call that did.
pub fn say_where(
    study: Study,
    bodies: &[f32],
    words: &[u32],
    numbers: &[f32],
    call: usize,
    refusal: Refusal,
) {
    match refusal {
        Refusal::TooManyBodies => say_last_body(study),
        Refusal::TooManyJoints => say_last_joint(study),
        _ => match refusal_place(study.header(), bodies, words, numbers, refusal.number()) {
            Some(place) => say_in(study, place),
            None => {
                study.con.err(b"the call itself");
                say_given(study, call);
            }
        },
    }
}
