// What is wrong with a text that cannot be read, in words, and the word that may have been meant.
use crate::near::{suggest, suggest_name};
use crate::place::Study;
use study_reader::faults::{Fault, FaultAt};
use study_reader::names::{body_name, joint_name};
use study_reader::words::{Word, next_word};

// What was expected.
fn expected(fault: Fault) -> &'static [u8] {
    match fault {
        Fault::Unknown => b"no line starts with this word; `study --help` lists those that do",
        Fault::Name => b"expected a name",
        Fault::Taken => b"this name is taken",
        Fault::NoBody => b"no body above has this name (`world` is the world)",
        Fault::Number =>
            b"expected a number: a decimal, 0x and eight hexadecimal digits, inf or -inf",
        Fault::Digits =>
            b"more than 19 significant digits; write fewer, or its bits as 0x and eight digits",
        Fault::LineEnd => b"expected the end of the line",
        Fault::Axis => b"expected an axis: x, y or angle",
        Fault::BodiesFull => b"more than 129 bodies cannot be read (a model has at most 128)",
        Fault::JointsFull => b"more than 129 joints cannot be read (a model has at most 128)",
        Fault::AfterCalls => b"bodies, joints and settings stand before the first call",
        Fault::Elsewhere => b"this word belongs to another kind of item: settings, body or joint",
        Fault::WholeNumber => b"expected a whole number from 0 to 4294967289",
        Fault::NoJoint => b"no joint has this name",
        Fault::NoRepeat => b"`end` without a `repeat`",
        Fault::Nested => b"a `repeat` inside a `repeat` is not read",
        Fault::OpenRepeat => b"this `repeat` has no `end`",
        Fault::Model => b"expected `acceleration` or `force`",
        Fault::WorldName => b"`world` is the world's name; expected another",
        Fault::Warm =>
            b"expected `warm` and a coefficient, `substep` and a number, or the end of the line",
        Fault::Csv => b"expected `csv` or the end of the line",
        Fault::FileName => b"expected the name of a file",
        Fault::LongName => b"a name has at most 64 bytes",
        Fault::PlainName =>
            b"a name has no comma and no quote, so that it is a field of comma-separated values",
        Fault::Mask =>
            b"expected `lock`, `limit`, `motor` or `couple`, and then axes (x, y, angle) or a mask as a number",
        Fault::Substeps =>
            b"expected `sweeps` and a number, then `substeps` and a number (`warm` and a coefficient may stand before them)",
        Fault::Other(_) => b"",
    }
}

// The words that start a line, each with where it is legal: in the item 1 to 3 as study_reader's fields have them, 5 where no call stands yet and 6 anywhere.
const LINE_WORDS: &[u8] = b"\
    dt 1\n\
    length_unit 1\n\
    normalized_max_corrective_velocity 1\n\
    position 2\n\
    angle 2\n\
    rotation 2\n\
    mass 2\n\
    inverse_mass 2\n\
    inverse_masses 2\n\
    inertia 2\n\
    inverse_inertia 2\n\
    velocity 2\n\
    angular_velocity 2\n\
    lock 3\n\
    limit 3\n\
    motor 3\n\
    couple 3\n\
    limits 3\n\
    frame1 3\n\
    frame1_angle 3\n\
    frame1_rotation 3\n\
    frame2 3\n\
    frame2_angle 3\n\
    frame2_rotation 3\n\
    center 3\n\
    center_angle 3\n\
    target_velocity 3\n\
    target_position 3\n\
    stiffness 3\n\
    damping 3\n\
    max_force 3\n\
    motor_model 3\n\
    natural_frequency 3\n\
    damping_ratio 3\n\
    impulse 3\n\
    limit_impulse 3\n\
    motor_impulse 3\n\
    enabled 3\n\
    disabled 3\n\
    disabled_by_attached_body 3\n\
    settings 5\n\
    body 5\n\
    joint 5\n\
    load 6\n\
    place 6\n\
    build 6\n\
    warm_start 6\n\
    sweep 6\n\
    settle 6\n\
    remove_bias 6\n\
    write_back 6\n\
    frame 6\n\
    read_rows 6\n\
    read_velocity 6\n\
    set_targets 6\n\
    masks 6\n\
    table 6\n\
    repeat 6\n\
    end 6\n\
";

// The words that may be meant elsewhere.
fn words_for(fault: Fault) -> &'static [u8] {
    match fault {
        Fault::Axis => b"x\ny\nangle\n",
        Fault::Model => b"acceleration\nforce\n",
        Fault::Warm => b"warm\nsubstep\n",
        Fault::Csv => b"csv\n",
        Fault::Mask => b"lock\nlimit\nmotor\ncouple\nangle\n",
        Fault::Substeps => b"warm\nsweeps\nsubsteps\n",
        _ => b"",
    }
}

// What may have been meant by the word at which the text cannot be read.
fn suggest_for(study: Study, fault: Fault, w: Word) {
    let con = study.con;
    let text = study.text;
    let st = study.st;
    match fault {
        Fault::NoBody => {
            let name_of = |i: u32| body_name(study.names, i);
            suggest_name(con, text, name_of, st.bodies, w);
        }
        Fault::NoJoint => {
            let name_of = |j: u32| joint_name(study.names, j);
            suggest_name(con, text, name_of, st.joints, w);
        }
        Fault::Unknown => suggest(con, LINE_WORDS, st.kind, text, w),
        _ => suggest(con, words_for(fault), 0, text, w),
    }
}

// The place of the fault, what was expected, the word that may have been meant, and the line.
pub fn say_fault(study: Study, found: FaultAt) {
    study.say_place(found.at);
    study.con.err(expected(found.fault));
    suggest_for(study, found.fault, next_word(study.text, found.at));
    study.con.err(b"\n");
    study.show_line(found.at);
}
