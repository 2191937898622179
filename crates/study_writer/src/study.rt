// The text of a model, written.
ghost use Rattle.std.specs.Prelude.{◌≡◌, [], ◌∷◌, ◌++◌, ◌+◌, ◌*◌, ◌≤◌, length, get_or, take, drop};
ghost use Rattle.std.specs.Float.{nan};
ghost use Rattle.texts.specs.Written.{written};
ghost use Rattle.model.specs.Layout.{body_width, words_width, masks_place, models_place, numbers_width, limits_width, motor_width};
ghost use Rattle.model.specs.Records.{num, word};
ghost use Rattle.model.specs.Model.{model_of};
ghost use Rattle.multibody.specs.Counts.{body_count, joint_count};
ghost use Rattle.model.specs.Planar.{plane};
ghost use Rattle.texts.specs.Digits.{decimal};
ghost use Rattle.texts.specs.Ascii.{ascii};
ghost use Rattle.texts.specs.Sink.{Appended};
ghost use Rattle.study_writer.specs.Text.{lines_text, number_word, model_word, settings_lines, body_lines, bodies_from, joint_head, frame_lines, all_limits_lines, all_motors_lines, softness_lines, joint_lines, joints_from};
ghost use Rattle.study_writer.specs.Printed.{printed_text};

use crate::lines::{
    put_body_line, put_center, put_enabled, put_joint_line, put_mask, put_model, put_one,
    put_one_of, put_two, put_two_of,
};
use model::layout::{
    BODY_WIDTH, BODY2, CENTER_CHOICE, COUPLED_AXES, DAMPING_RATIO, DOF_ANGULAR, DOF_X, DOF_Y,
    ENABLED, FRAME1, FRAME2, INERTIA, LIMIT_AXES, LIMITS_ANGULAR, LIMITS_X, LIMITS_Y, LOCKED_AXES,
    MASS_X, MODEL_ANGULAR, MODEL_X, MODEL_Y, MOTOR_ANGULAR, MOTOR_AXES, MOTOR_X, MOTOR_Y,
    NATURAL_FREQUENCY, NUMBERS_WIDTH, POSE, VELOCITY_ANGULAR, VELOCITY_X, WORDS_WIDTH,
};
use multibody::header::Header;
use rows::integration_parameters::IntegrationParameters;
use texts::sink::put_text;

// At most so many bodies and joints have a text: rules 1 and 2.
const MOST_BODIES: usize = 128;

const MOST_JOINTS: usize = 128;

// Where a body's position stands, and those of a joint's frames: after the rotation.
const POSITION: usize = POSE + 2;

const FRAME1_POSITION: usize = FRAME1 + 2;

const FRAME2_POSITION: usize = FRAME2 + 2;

fn put_settings(out: &mut [u8], at: usize, params: IntegrationParameters) -> usize
    ensures { Appended out.old at (lines_text (settings_lines params)) out.new result }
{
    let s = [
        params.dt,
        params.length_unit,
        params.normalized_max_corrective_velocity,
    ];
    let a = put_text(&mut *out, at, b"settings\n");
    let b = put_one(&mut *out, a, b"dt", &s, 0, 0);
    let c = put_one(&mut *out, b, b"length_unit", &s, 0, 1);
    put_one(
        &mut *out,
        c,
        b"normalized_max_corrective_velocity",
        &s,
        0,
        2,
    )
}

// ---- bodies

fn put_pose(out: &mut [u8], at: usize, i: u32, s: &[f32]) -> usize
    requires { i * body_width + body_width ≤ length s.now }
    ensures { Appended out.old at (lines_text (take 3 (body_lines i (num body_width s.now i)))) out.new result }
{
    let o = i as usize * BODY_WIDTH;
    let a = put_body_line(&mut *out, at, i);
    let b = put_two(&mut *out, a, b"rotation", s, o, POSE);
    put_two(&mut *out, b, b"position", s, o, POSITION)
}

fn put_masses(out: &mut [u8], at: usize, i: u32, s: &[f32]) -> usize
    requires { i * body_width + body_width ≤ length s.now }
    ensures { Appended out.old at (lines_text (drop 3 (body_lines i (num body_width s.now i)))) out.new result }
{
    let o = i as usize * BODY_WIDTH;
    let a = put_one(&mut *out, at, b"inverse_inertia", s, o, INERTIA);
    let b = put_two(&mut *out, a, b"inverse_masses", s, o, MASS_X);
    let c = put_two(&mut *out, b, b"velocity", s, o, VELOCITY_X);
    put_one(&mut *out, c, b"angular_velocity", s, o, VELOCITY_ANGULAR)
}

fn put_body(out: &mut [u8], at: usize, i: u32, bodies: &[f32]) -> usize
    requires { i * body_width + body_width ≤ length bodies.now }
    ensures { Appended out.old at (lines_text (body_lines i (num body_width bodies.now i))) out.new result }
{
    let a = put_pose(&mut *out, at, i, bodies);
    put_masses(&mut *out, a, i, bodies)
}

fn put_bodies(out: &mut [u8], at: usize, n: u32, bodies: &[f32]) -> usize
    requires { n * body_width ≤ length bodies.now }
    ensures { Appended out.old at (lines_text (bodies_from bodies.now 0 n)) out.new result }
{
    let mut end = at;
    for i in 0..n {
        end = put_body(&mut *out, end, i, bodies);
    }
    end
}

// ---- joints

fn put_masks(out: &mut [u8], at: usize, words: &[u32], o: usize) -> usize
    requires { o + words_width ≤ length words.now }
    ensures { Appended out.old at (lines_text ((ascii "lock" ∷ decimal (get_or words.now (o + masks_place) 0) ∷ []) ∷ (ascii "limit" ∷ decimal (get_or words.now (o + (masks_place + 1)) 0) ∷ []) ∷ (ascii "motor" ∷ decimal (get_or words.now (o + (masks_place + 2)) 0) ∷ []) ∷ (ascii "couple" ∷ decimal (get_or words.now (o + (masks_place + 3)) 0) ∷ []) ∷ [])) out.new result }
{
    let a = put_mask(&mut *out, at, b"lock", words[o + LOCKED_AXES]);
    let b = put_mask(&mut *out, a, b"limit", words[o + LIMIT_AXES]);
    let c = put_mask(&mut *out, b, b"motor", words[o + MOTOR_AXES]);
    put_mask(&mut *out, c, b"couple", words[o + COUPLED_AXES])
}

fn put_models(out: &mut [u8], at: usize, words: &[u32], o: usize) -> usize
    requires { o + words_width ≤ length words.now }
    ensures { Appended out.old at (lines_text ((ascii "motor_model" ∷ ascii "x" ∷ model_word (get_or words.now (o + models_place) 0) ∷ []) ∷ (ascii "motor_model" ∷ ascii "y" ∷ model_word (get_or words.now (o + (models_place + 1)) 0) ∷ []) ∷ (ascii "motor_model" ∷ ascii "angle" ∷ model_word (get_or words.now (o + (models_place + 2)) 0) ∷ []) ∷ [])) out.new result }
{
    let a = put_model(&mut *out, at, b"x", words[o + MODEL_X]);
    let b = put_model(&mut *out, a, b"y", words[o + MODEL_Y]);
    put_model(&mut *out, b, b"angle", words[o + MODEL_ANGULAR])
}

fn put_head(out: &mut [u8], at: usize, j: u32, words: &[u32]) -> usize
    requires { j * words_width + words_width ≤ length words.now }
    ensures { Appended out.old at (lines_text (joint_head j (word words_width words.now j))) out.new result }
{
    let o = j as usize * WORDS_WIDTH;
    let a = put_joint_line(&mut *out, at, j, words[o], words[o + BODY2]);
    let b = put_masks(&mut *out, a, words, o);
    let c = put_models(&mut *out, b, words, o);
    put_enabled(&mut *out, c, words[o + ENABLED])
}

fn put_frames(out: &mut [u8], at: usize, s: &[f32], o: usize) -> usize
    requires { o + numbers_width ≤ length s.now }
    ensures { Appended out.old at (lines_text (frame_lines (λ k. get_or s.now (o + k) nan))) out.new result }
{
    let a = put_two(&mut *out, at, b"frame1_rotation", s, o, FRAME1);
    let b = put_two(&mut *out, a, b"frame1", s, o, FRAME1_POSITION);
    let c = put_two(&mut *out, b, b"frame2_rotation", s, o, FRAME2);
    put_two(&mut *out, c, b"frame2", s, o, FRAME2_POSITION)
}

fn put_limits(out: &mut [u8], at: usize, axis: &[u8], s: &[f32], o: usize, k: usize) -> usize
    requires { o + (k + limits_width) ≤ length s.now }
    ensures { Appended out.old at (lines_text ((ascii "limits" ∷ axis.now ∷ number_word (get_or s.now (o + k) nan) ∷ number_word (get_or s.now (o + (k + 1)) nan) ∷ []) ∷ (ascii "limit_impulse" ∷ axis.now ∷ number_word (get_or s.now (o + (k + 2)) nan) ∷ []) ∷ [])) out.new result }
{
    let a = put_two_of(&mut *out, at, b"limits", axis, s, o, k);
    put_one_of(&mut *out, a, b"limit_impulse", axis, s, o, k + 2)
}

fn put_drive(out: &mut [u8], at: usize, axis: &[u8], s: &[f32], o: usize, k: usize) -> usize
    requires { o + (k + motor_width) ≤ length s.now }
    ensures { Appended out.old at (lines_text ((ascii "target_velocity" ∷ axis.now ∷ number_word (get_or s.now (o + k) nan) ∷ []) ∷ (ascii "target_position" ∷ axis.now ∷ number_word (get_or s.now (o + (k + 1)) nan) ∷ []) ∷ (ascii "stiffness" ∷ axis.now ∷ number_word (get_or s.now (o + (k + 2)) nan) ∷ []) ∷ [])) out.new result }
{
    let a = put_one_of(&mut *out, at, b"target_velocity", axis, s, o, k);
    let b = put_one_of(&mut *out, a, b"target_position", axis, s, o, k + 1);
    put_one_of(&mut *out, b, b"stiffness", axis, s, o, k + 2)
}

fn put_force(out: &mut [u8], at: usize, axis: &[u8], s: &[f32], o: usize, k: usize) -> usize
    requires { o + (k + motor_width) ≤ length s.now }
    ensures { Appended out.old at (lines_text ((ascii "damping" ∷ axis.now ∷ number_word (get_or s.now (o + (k + 3)) nan) ∷ []) ∷ (ascii "max_force" ∷ axis.now ∷ number_word (get_or s.now (o + (k + 4)) nan) ∷ []) ∷ (ascii "motor_impulse" ∷ axis.now ∷ number_word (get_or s.now (o + (k + 5)) nan) ∷ []) ∷ [])) out.new result }
{
    let a = put_one_of(&mut *out, at, b"damping", axis, s, o, k + 3);
    let b = put_one_of(&mut *out, a, b"max_force", axis, s, o, k + 4);
    put_one_of(&mut *out, b, b"motor_impulse", axis, s, o, k + 5)
}

fn put_motor(out: &mut [u8], at: usize, axis: &[u8], s: &[f32], o: usize, k: usize) -> usize
    requires { o + (k + motor_width) ≤ length s.now }
    ensures { Appended out.old at (lines_text ((ascii "target_velocity" ∷ axis.now ∷ number_word (get_or s.now (o + k) nan) ∷ []) ∷ (ascii "target_position" ∷ axis.now ∷ number_word (get_or s.now (o + (k + 1)) nan) ∷ []) ∷ (ascii "stiffness" ∷ axis.now ∷ number_word (get_or s.now (o + (k + 2)) nan) ∷ []) ∷ (ascii "damping" ∷ axis.now ∷ number_word (get_or s.now (o + (k + 3)) nan) ∷ []) ∷ (ascii "max_force" ∷ axis.now ∷ number_word (get_or s.now (o + (k + 4)) nan) ∷ []) ∷ (ascii "motor_impulse" ∷ axis.now ∷ number_word (get_or s.now (o + (k + 5)) nan) ∷ []) ∷ [])) out.new result }
{
    let a = put_drive(&mut *out, at, axis, s, o, k);
    put_force(&mut *out, a, axis, s, o, k)
}

fn put_all_limits(out: &mut [u8], at: usize, s: &[f32], o: usize) -> usize
    requires { o + numbers_width ≤ length s.now }
    ensures { Appended out.old at (lines_text (all_limits_lines (λ k. get_or s.now (o + k) nan))) out.new result }
{
    let a = put_limits(&mut *out, at, b"x", s, o, LIMITS_X);
    let b = put_limits(&mut *out, a, b"y", s, o, LIMITS_Y);
    put_limits(&mut *out, b, b"angle", s, o, LIMITS_ANGULAR)
}

fn put_all_motors(out: &mut [u8], at: usize, s: &[f32], o: usize) -> usize
    requires { o + numbers_width ≤ length s.now }
    ensures { Appended out.old at (lines_text (all_motors_lines (λ k. get_or s.now (o + k) nan))) out.new result }
{
    let a = put_motor(&mut *out, at, b"x", s, o, MOTOR_X);
    let b = put_motor(&mut *out, a, b"y", s, o, MOTOR_Y);
    put_motor(&mut *out, b, b"angle", s, o, MOTOR_ANGULAR)
}

fn put_spring(out: &mut [u8], at: usize, s: &[f32], o: usize) -> usize
    requires { o + numbers_width ≤ length s.now }
    ensures { Appended out.old at (lines_text (take 2 (softness_lines (λ k. get_or s.now (o + k) nan) 0))) out.new result }
{
    let a = put_one(&mut *out, at, b"natural_frequency", s, o, NATURAL_FREQUENCY);
    put_one(&mut *out, a, b"damping_ratio", s, o, DAMPING_RATIO)
}

fn put_impulses(out: &mut [u8], at: usize, s: &[f32], o: usize) -> usize
    requires { o + numbers_width ≤ length s.now }
    ensures { Appended out.old at (lines_text (take 3 (drop 2 (softness_lines (λ k. get_or s.now (o + k) nan) 0)))) out.new result }
{
    let a = put_one_of(&mut *out, at, b"impulse", b"x", s, o, DOF_X);
    let b = put_one_of(&mut *out, a, b"impulse", b"y", s, o, DOF_Y);
    put_one_of(&mut *out, b, b"impulse", b"angle", s, o, DOF_ANGULAR)
}

fn put_softness(out: &mut [u8], at: usize, choice: u32, s: &[f32], o: usize) -> usize
    requires { o + numbers_width ≤ length s.now }
    ensures { Appended out.old at (lines_text (softness_lines (λ k. get_or s.now (o + k) nan) choice)) out.new result }
{
    let a = put_spring(&mut *out, at, s, o);
    let b = put_impulses(&mut *out, a, s, o);
    put_center(&mut *out, b, choice, s, o)
}

fn put_joint(out: &mut [u8], at: usize, j: u32, words: &[u32], s: &[f32]) -> usize
    requires { (j * words_width + words_width ≤ length words.now) × (j * numbers_width + numbers_width ≤ length s.now) }
    ensures { Appended out.old at (lines_text (joint_lines j (word words_width words.now j) (num numbers_width s.now j))) out.new result }
{
    let o = j as usize * NUMBERS_WIDTH;
    let p = j as usize * WORDS_WIDTH;
    let a = put_head(&mut *out, at, j, words);
    let b = put_frames(&mut *out, a, s, o);
    let c = put_all_limits(&mut *out, b, s, o);
    let d = put_all_motors(&mut *out, c, s, o);
    put_softness(&mut *out, d, words[p + CENTER_CHOICE], s, o)
}

fn put_joints(out: &mut [u8], at: usize, n: u32, words: &[u32], s: &[f32]) -> usize
    requires { (n * words_width ≤ length words.now) × (n * numbers_width ≤ length s.now) }
    ensures { Appended out.old at (lines_text (joints_from words.now s.now 0 n)) out.new result }
{
    let mut end = at;
    for j in 0..n {
        end = put_joint(&mut *out, end, j, words, s);
    }
    end
}

// ---- the whole text

fn body_count(bodies: &[f32]) -> usize
    ensures { result ≡ body_count plane bodies.now }
{
    bodies.len() / BODY_WIDTH
}

fn joint_count(words: &[u32], numbers: &[f32]) -> usize
    ensures { result ≡ joint_count plane words.now numbers.now }
{
    (words.len() / WORDS_WIDTH).min(numbers.len() / NUMBERS_WIDTH)
}

fn put_study(
    out: &mut [u8],
    params: IntegrationParameters,
    bodies: &[f32],
    words: &[u32],
    numbers: &[f32],
    nb: u32,
    nj: u32,
) -> usize
    requires { (nb * body_width ≤ length bodies.now) × (nj * words_width ≤ length words.now) × (nj * numbers_width ≤ length numbers.now) }
    ensures { Appended out.old 0 (lines_text (settings_lines params ++ (bodies_from bodies.now 0 nb ++ joints_from words.now numbers.now 0 nj))) out.new result }
{
    let a = put_settings(&mut *out, 0, params);
    let b = put_bodies(&mut *out, a, nb, bodies);
    put_joints(&mut *out, b, nj, words, numbers)
}

// Writes the text of a model to the front of `out` and answers its length. Where `out` is shorter nothing is written, and the length is answered all
// the same. A model with more bodies or joints than rules 1 and 2 let through has no text: 0 is answered.
pub fn write_study(
    out: &mut [u8],
    header: Header,
    bodies: &[f32],
    words: &[u32],
    numbers: &[f32],
) -> usize
    ensures { (result ≡ length (printed_text (model_of header bodies.now words.now numbers.now))) × (out.new ≡ written out.old (printed_text (model_of header bodies.now words.now numbers.now))) }
{
    let nb = body_count(bodies);
    if MOST_BODIES < nb {
        return 0;
    }
    let nj = joint_count(words, numbers);
    if MOST_JOINTS < nj {
        return 0;
    }
    let mut none = [0u8; 1];
    let len = put_study(
        &mut none,
        header.params,
        bodies,
        words,
        numbers,
        nb as u32,
        nj as u32,
    );
    if len <= out.len() {
        return put_study(
            &mut *out,
            header.params,
            bodies,
            words,
            numbers,
            nb as u32,
            nj as u32,
        );
    }
    len
}
