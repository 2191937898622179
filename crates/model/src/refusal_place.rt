// Where a model breaks a rule: the first word or number that fails one of the rule's tests, in their order.
ghost use Rattle.std.specs.Prelude.{◌≡◌, true, not, cond, ◌+◌, ◌*◌, ◌≤◌, ◌<◌, eqb, length, get_or};
ghost use Rattle.std.specs.Float.Ieee.{is_nan};
ghost use Rattle.floats.specs.Scalar.{is_finite};
ghost use Rattle.multibody.specs.Counts.{body_count};
ghost use Rattle.multibody.specs.Finite.{passes};
ghost use Rattle.multibody.specs.Finite.Asks.{free};
ghost use Rattle.model.specs.Layout.{body_width, words_width, numbers_width};
ghost use Rattle.model.specs.Model.{model_of};
ghost use Rattle.model.specs.Refusals.{body_asks, joint_asks};
ghost use Rattle.model.specs.Planar.{plane};
ghost use Rattle.model.specs.RefusalPlace.{broken, each, mask_tests, present_tests, apart_tests, number_tests, angle_tests, joint_tests, all_joint_tests, body_tests, all_body_tests, finite_tests, step_tests, setting_tests, refusal_place};

use crate::layout::{
    BODY_WIDTH, BODY1, BODY2, CENTER_CHOICE, CENTER_IM, CENTER_RE, LOCKED_AXES, MODEL_X,
    NUMBERS_WIDTH, WORDS_WIDTH,
};
use crate::plane::Plane;
use crate::refusals::{ALL_AXES, angle_fits};
use crate::store::center_at;
use floats::scalar::is_finite;
use multibody::counts::{body_count, joint_count};
use multibody::header::Header;
use multibody::kind::Kind;
use multibody::refusals::{is_nan, present_or_world};
use rows::integration_parameters::IntegrationParameters;

// A setting, by its number; number c of body i; word c, or number c, of joint j.
#[derive(Clone, Copy)]
pub enum Place {
    Setting(usize),
    BodyNumber(usize, usize),
    JointWord(usize, usize),
    JointNumber(usize, usize),
}

// ---- rules 3, 4, 5 and 12, of joint j

fn mask_place(words: &[u32], j: usize) -> Option<Place>
    requires { j * words_width + words_width ≤ length words.now }
    ensures { result ≡ broken (mask_tests words.now j) }
{
    let o = j * WORDS_WIDTH;
    for c in LOCKED_AXES..MODEL_X {
        if words[o + c] > ALL_AXES {
            return Some(Place::JointWord(j, c));
        }
    }
    None
}

fn present_place(bodies: &[f32], words: &[u32], j: usize) -> Option<Place>
    requires { j * words_width + words_width ≤ length words.now }
    ensures { result ≡ broken (present_tests bodies.now words.now j) }
{
    if !present_or_world::<Plane>(bodies, Plane::body1_at(words, j)) {
        return Some(Place::JointWord(j, BODY1));
    }
    if !present_or_world::<Plane>(bodies, Plane::body2_at(words, j)) {
        return Some(Place::JointWord(j, BODY2));
    }
    None
}

fn apart_place(words: &[u32], j: usize) -> Option<Place>
    requires { j * words_width + words_width ≤ length words.now }
    ensures { result ≡ broken (apart_tests words.now j) }
{
    if Plane::body1_at(words, j) == Plane::body2_at(words, j) {
        return Some(Place::JointWord(j, BODY1));
    }
    None
}

fn angle_place(words: &[u32], numbers: &[f32], j: usize) -> Option<Place>
    requires words_width_in_bounds { j * words_width + words_width ≤ length words.now }
    requires numbers_width_in_bounds { j * numbers_width + numbers_width ≤ length numbers.now }
    ensures { result ≡ broken (angle_tests words.now numbers.now j) }
{
    if !angle_fits(center_at(words, numbers, j)) {
        return Some(Place::JointNumber(j, CENTER_RE));
    }
    None
}

// ---- rule 6

// A number passes what the letter of its place asks: `f` that it is finite, `n` that it is no NaN, any other letter nothing.
fn letter_passes(asks: &[u8], c: usize, x: f32) -> bool
    requires { c < length asks.now }
    ensures { result ≡ cond (eqb (get_or asks.now c 0) 102) (is_finite x) (cond (eqb (get_or asks.now c 0) 110) (not (is_nan x)) true) }
{
    let a = asks[c];
    if a == 102 {
        return is_finite(x);
    }
    if a == 110 {
        return !is_nan(x);
    }
    true
}

// Number c of a body: pose, inverse inertia and inverse masses; velocity.
fn body_passes(c: usize, x: f32) -> bool
    requires { c < body_width }
    ensures { result ≡ passes (get_or body_asks c free) x }
{
    letter_passes(b"fffffff---", c, x)
}

// Number c of a joint whose centre is typed as the word `choice` says: two frames; the limits and the motors of three axes; softness; Dof impulses; the centre.
fn joint_passes(choice: u32, c: usize, x: f32) -> bool
    requires { c < numbers_width }
    ensures { result ≡ passes (get_or (joint_asks choice) c free) x }
{
    if c < CENTER_IM {
        return letter_passes(b"ffffffffnn-nn-nn-ffffn-ffffn-ffffn-ff---f", c, x);
    }
    if choice == 0 {
        return is_finite(x);
    }
    true
}

fn number_place(words: &[u32], numbers: &[f32], j: usize) -> Option<Place>
    requires words_width_in_bounds { j * words_width + words_width ≤ length words.now }
    requires numbers_width_in_bounds { j * numbers_width + numbers_width ≤ length numbers.now }
    ensures { result ≡ broken (number_tests words.now numbers.now j) }
{
    let choice = words[j * WORDS_WIDTH + CENTER_CHOICE];
    let o = j * NUMBERS_WIDTH;
    for c in 0..NUMBERS_WIDTH {
        if !joint_passes(choice, c, numbers[o + c]) {
            return Some(Place::JointNumber(j, c));
        }
    }
    None
}

fn body_place(bodies: &[f32], i: usize) -> Option<Place>
    requires { i * body_width + body_width ≤ length bodies.now }
    ensures { result ≡ broken (body_tests bodies.now i) }
{
    let o = i * BODY_WIDTH;
    for c in 0..BODY_WIDTH {
        if !body_passes(c, bodies[o + c]) {
            return Some(Place::BodyNumber(i, c));
        }
    }
    None
}

// ---- rules 6 and 7, of the settings

fn finite_place(p: IntegrationParameters) -> Option<Place>
    ensures { result ≡ broken (finite_tests p) }
{
    if !is_finite(p.dt) {
        return Some(Place::Setting(0));
    }
    if !is_finite(p.length_unit) {
        return Some(Place::Setting(1));
    }
    if !is_finite(p.normalized_max_corrective_velocity) {
        return Some(Place::Setting(2));
    }
    None
}

fn step_place(p: IntegrationParameters) -> Option<Place>
    ensures { result ≡ broken (step_tests p) }
{
    if p.dt < 0.0 {
        return Some(Place::Setting(0));
    }
    None
}

fn setting_place(p: IntegrationParameters, k: u32) -> Option<Place>
    ensures { result ≡ broken (setting_tests p k) }
{
    if k == 6 {
        return finite_place(p);
    }
    if k == 7 {
        return step_place(p);
    }
    None
}

// ---- the rule of number k, of all bodies and of all joints

fn bodies_place(bodies: &[f32]) -> Option<Place>
    ensures { result ≡ broken (each 0 (body_count plane bodies.now) (body_tests bodies.now)) }
{
    let n = body_count::<Plane>(bodies);
    for i in 0..n {
        let p = body_place(bodies, i);
        if p.is_some() {
            return p;
        }
    }
    None
}

fn all_bodies_place(bodies: &[f32], k: u32) -> Option<Place>
    ensures { result ≡ broken (all_body_tests bodies.now k) }
{
    if k == 6 {
        return bodies_place(bodies);
    }
    None
}

fn joint_place(bodies: &[f32], words: &[u32], numbers: &[f32], k: u32, j: usize) -> Option<Place>
    requires words_width_in_bounds { j * words_width + words_width ≤ length words.now }
    requires numbers_width_in_bounds { j * numbers_width + numbers_width ≤ length numbers.now }
    ensures { result ≡ broken (joint_tests bodies.now words.now numbers.now k j) }
{
    if k == 3 {
        return mask_place(words, j);
    }
    if k == 4 {
        return present_place(bodies, words, j);
    }
    if k == 5 {
        return apart_place(words, j);
    }
    if k == 6 {
        return number_place(words, numbers, j);
    }
    if k == 12 {
        return angle_place(words, numbers, j);
    }
    None
}

fn all_joints_place(bodies: &[f32], words: &[u32], numbers: &[f32], k: u32) -> Option<Place>
    ensures { result ≡ broken (all_joint_tests bodies.now words.now numbers.now k) }
{
    let n = joint_count::<Plane>(words, numbers);
    for j in 0..n {
        let p = joint_place(bodies, words, numbers, k, j);
        if p.is_some() {
            return p;
        }
    }
    None
}

// Where a model breaks the rule of number k; none, where a count or a call's own arguments do, or nothing does.
pub fn refusal_place(
    header: Header,
    bodies: &[f32],
    words: &[u32],
    numbers: &[f32],
    k: u32,
) -> Option<Place>
    ensures { result ≡ refusal_place (model_of header bodies.now words.now numbers.now) k }
{
    let s = setting_place(header.params, k);
    if s.is_some() {
        return s;
    }
    let b = all_bodies_place(bodies, k);
    if b.is_some() {
        return b;
    }
    all_joints_place(bodies, words, numbers, k)
}
