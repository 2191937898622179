// Document 01's rules 1 to 8, and rule 17 right after 3, each tried on the whole of what a call is handed before the next.
ghost use Rattle.std.specs.Prelude.{◌≡◌, Bool, not, ◌&&◌, ◌||◌, [], ◌∷◌, ◌++◌, ◌+◌, ◌*◌, ◌≤◌, length, replicate};
ghost use Rattle.std.specs.Float.Ieee.{is_nan};
ghost use Rattle.multibody.specs.declared.header.Header.{Header};
ghost use Rattle.spatial_model.specs.Layout.{body_width, words_width, numbers_width, limits_place, motors_place};
ghost use Rattle.spatial_model.specs.Model.{model_of};
ghost use Rattle.multibody.specs.Answers.{refused_number};
ghost use Rattle.multibody.specs.Rules.{refusal, all};
ghost use Rattle.multibody.specs.Refusals.{present_or_world, bodies_present, bodies_apart, finite_params, finite_warm, finite_body, finite_joint, model_rules, storage_rule};
ghost use Rattle.multibody.specs.Finite.{passes_from, limit_asks, motor_asks, thrice};
ghost use Rattle.multibody.specs.Finite.Asks.{finite, no_nan};
ghost use Rattle.spatial_model.specs.Spatial.{joint_rules, space, spatial};
ghost use Rattle.spatial_model.specs.Refusals.{masks_fit, linear_alone, finite_vector, finite_rotation, finite_pose};

use crate::layout::{
    BODY_WIDTH, COUPLED_AXES, LIMIT_AXES, LIMITS_X, LIMITS_Y, LIMITS_Z, LOCKED_AXES, MOTOR_AXES,
    MOTOR_X, MOTOR_Y, MOTOR_Z, NATURAL_FREQUENCY, NUMBERS_WIDTH, VELOCITY, WORDS_WIDTH, WORLD,
};
use crate::space::Space;
use floats::scalar::is_finite;
use multibody::counts::{body_count, joint_count, row_capacity, rows_before};
use multibody::header::Header;
use multibody::refusal::Refusal;
use multibody::refusals::{
    all_bodies_apart, all_bodies_present, all_finite, finite_motor, finite_params, no_nan_from,
};
use rows::integration_parameters::IntegrationParameters;
use spatial_floats::pose::Pose;
use spatial_floats::rotation_ops::Rotation;
use spatial_floats::vector::Vector;

// Rules 1, 2 and 3: at most so many bodies and joints, and no bit past the six axes.
pub const MOST_BODIES: usize = 128;

pub const MOST_JOINTS: usize = 128;

pub const ALL_AXES: u32 = 63;

// Rule 17: the three linear axes.
pub const LINEAR_AXES: u32 = 7;

const FOUR_MASKS: usize = 4;

// ---- rules 3, 17, 4 and 5

fn masks_fit(words: &[u32], j: usize) -> bool
    requires { j * words_width + words_width ≤ length words.now }
    ensures { result ≡ masks_fit words.now j }
{
    let o = j * WORDS_WIDTH + LOCKED_AXES;
    for c in 0..FOUR_MASKS {
        if words[o + c] > ALL_AXES {
            return false;
        }
    }
    true
}

fn all_masks_fit(words: &[u32], n: usize) -> bool
    requires { n * words_width ≤ length words.now }
    ensures { result ≡ all 0 n (masks_fit words.now) }
{
    for j in 0..n {
        if !masks_fit(words, j) {
            return false;
        }
    }
    true
}

// Rule 17: limits and motors on linear axes alone, and no coupled axis.
fn linear_alone(words: &[u32], j: usize) -> bool
    requires { j * words_width + words_width ≤ length words.now }
    ensures { result ≡ linear_alone words.now j }
{
    let o = j * WORDS_WIDTH;
    if words[o + LIMIT_AXES] > LINEAR_AXES {
        return false;
    }
    if words[o + MOTOR_AXES] > LINEAR_AXES {
        return false;
    }
    words[o + COUPLED_AXES] == 0
}

fn all_linear_alone(words: &[u32], n: usize) -> bool
    requires { n * words_width ≤ length words.now }
    ensures { result ≡ all 0 n (linear_alone words.now) }
{
    for j in 0..n {
        if !linear_alone(words, j) {
            return false;
        }
    }
    true
}

// ---- rule 6

fn finite_vector(v: Vector) -> bool
    ensures { result ≡ finite_vector v }
{
    is_finite(v.x) && is_finite(v.y) && is_finite(v.z)
}

fn finite_rotation(q: Rotation) -> bool
    ensures { result ≡ finite_rotation q }
{
    is_finite(q.x) && is_finite(q.y) && is_finite(q.z) && is_finite(q.w)
}

pub fn finite_pose(p: Pose) -> bool
    ensures { result ≡ finite_pose p }
{
    finite_rotation(p.rotation) && finite_vector(p.translation)
}

// Of a joint whose numbers start at place o, the ends of its limits, and its motors.
pub fn limit_ends(s: &[f32], o: usize) -> bool
    requires { o + numbers_width ≤ length s.now }
    ensures { result ≡ passes_from (thrice limit_asks) s.now (o + limits_place) }
{
    no_nan_from(s, o + LIMITS_X, 2)
        && no_nan_from(s, o + LIMITS_Y, 2)
        && no_nan_from(s, o + LIMITS_Z, 2)
}

pub fn finite_motors(s: &[f32], o: usize) -> bool
    requires { o + numbers_width ≤ length s.now }
    ensures { result ≡ passes_from (thrice motor_asks) s.now (o + motors_place) }
{
    finite_motor(s, o + MOTOR_X) && finite_motor(s, o + MOTOR_Y) && finite_motor(s, o + MOTOR_Z)
}

// ---- the rules in order

// Rules 3, 17, 4 and 5.
fn joints_refusal(bodies: &[f32], words: &[u32], n: usize) -> Result<(), Refusal>
    requires { n * words_width ≤ length words.now }
    ensures { refused_number result ≡ refusal (joint_rules bodies.now words.now n) }
{
    if !all_masks_fit(words, n) {
        return Err(Refusal::MaskOutOfRange);
    }
    if !all_linear_alone(words, n) {
        return Err(Refusal::NotLinearAlone);
    }
    if !all_bodies_present::<Space>(bodies, words, n) {
        return Err(Refusal::NoSuchBody);
    }
    if !all_bodies_apart::<Space>(words, n) {
        return Err(Refusal::SameBodies);
    }
    Ok(())
}

// The first of rules 1 to 3, 17 and 4 to 7 that fails. `finite`: the settings and the call's own numbers are. Settings are handed over one by one: a struct of them would be put together just
// to be copied.
fn first_refusal(
    dt: f32,
    finite: bool,
    bodies: &[f32],
    words: &[u32],
    numbers: &[f32],
) -> Result<(), Refusal>
    ensures { (header : Header) (arguments : Bool) → dt ≡ header.params.dt → finite ≡ (finite_params header.params && arguments) → refused_number result ≡ refusal (model_rules spatial (model_of header bodies.now words.now numbers.now) arguments) }
{
    let n = body_count::<Space>(bodies);
    let joints = joint_count::<Space>(words, numbers);
    if n > MOST_BODIES {
        return Err(Refusal::TooManyBodies);
    }
    if joints > MOST_JOINTS {
        return Err(Refusal::TooManyJoints);
    }
    joints_refusal(bodies, words, joints)?;
    if !all_finite::<Space>(finite, bodies, n, words, numbers, joints) {
        return Err(Refusal::NotFinite);
    }
    if dt < 0.0 {
        return Err(Refusal::NegativeDt);
    }
    Ok(())
}

// The first of these rules that fails of a model. `arguments`: the call's own numbers are finite.
pub fn model_refusal(
    header: Header,
    bodies: &[f32],
    words: &[u32],
    numbers: &[f32],
    arguments: bool,
) -> Result<(), Refusal>
    ensures { refused_number result ≡ refusal (model_rules spatial (model_of header bodies.now words.now numbers.now) arguments) }
{
    let finite = finite_params(header.params) & arguments;
    first_refusal(header.params.dt, finite, bodies, words, numbers)
}

// Rules 1 to 8 and 17, for a call that is handed row storage.
pub fn storage_refusal(
    header: Header,
    bodies: &[f32],
    words: &[u32],
    numbers: &[f32],
    rows: &[f32],
    arguments: bool,
) -> Result<(), Refusal>
    ensures { refused_number result ≡ refusal (model_rules spatial (model_of header bodies.now words.now numbers.now) arguments ++ (storage_rule space (model_of header bodies.now words.now numbers.now) rows.now ∷ [])) }
{
    let finite = finite_params(header.params) & arguments;
    first_refusal(header.params.dt, finite, bodies, words, numbers)?;
    if rows_before::<Space>(words, joint_count::<Space>(words, numbers))
        > row_capacity::<Space>(rows)
    {
        return Err(Refusal::NoRoom);
    }
    Ok(())
}
