// Document 01's rules 1 to 8, and rule 12 right after 6, each tried on the whole of what a call is handed before the next.
ghost use Rattle.std.specs.Prelude.{◌≡◌, Bool, false, not, ◌&&◌, ◌||◌, [], ◌∷◌, ◌++◌, ◌+◌, ◌*◌, ◌≤◌, length, replicate};
ghost use Rattle.std.specs.Float.Ieee.{is_nan};
ghost use Rattle.floats.specs.Scalar.{is_finite};
ghost use Rattle.multibody.specs.declared.header.Header.{Header};
ghost use Rattle.model.specs.Layout.{body_width, words_width, numbers_width, limits_place, motors_place};
ghost use Rattle.model.specs.Model.{model_of};
ghost use Rattle.multibody.specs.Answers.{refusal_number, refused_number};
ghost use Rattle.multibody.specs.Rules.{refusal, all};
ghost use Rattle.multibody.specs.Refusals.{present_or_world, bodies_present, bodies_apart, finite_params, finite_warm, finite_body, finite_joint, model_rules, model_rules_with, storage_rule};
ghost use Rattle.model.specs.Planar.{joint_rules, plane, planar};
ghost use Rattle.multibody.specs.Finite.{passes_from, limit_asks, motor_asks, thrice};
ghost use Rattle.multibody.specs.Finite.Asks.{finite, no_nan};
ghost use Rattle.model.specs.Refusals.{masks_fit, new_masks_fit, finite_pose, finite_center, angle_fits, center_fits};

use crate::layout::{
    BODY_WIDTH, LIMITS_ANGULAR, LIMITS_X, LIMITS_Y, LOCKED_AXES, MOTOR_ANGULAR, MOTOR_X, MOTOR_Y,
    NATURAL_FREQUENCY, NUMBERS_WIDTH, VELOCITY_X, WORDS_WIDTH, WORLD,
};
use crate::plane::Plane;
use crate::store::{LimitCenter, center_at};
use floats::pose::Pose;
use floats::scalar::is_finite;
use floats::sin_cos::angle_too_large;
use multibody::counts::{body_count, joint_count, row_capacity, rows_before};
use multibody::header::Header;
use multibody::refusal::Refusal;
use multibody::refusals::{
    all_bodies_apart, all_bodies_present, all_finite, finite_motor, finite_params, no_nan_from,
};
use rows::generic_joint::Masks;
use rows::integration_parameters::IntegrationParameters;

// Rules 1, 2 and 3: at most so many bodies and joints, and no bit past the three axes.
pub const MOST_BODIES: usize = 128;

pub const MOST_JOINTS: usize = 128;

pub const ALL_AXES: u32 = 7;

const FOUR_MASKS: usize = 4;

// ---- rules 3, 4 and 5

fn masks_fit(words: &[u32], j: usize) -> bool
    requires { j * words_width + words_width ≤ length words.now }
    ensures { result ≡ masks_fit words.now j }
{
    let o = j * WORDS_WIDTH + LOCKED_AXES;
    for c in 0..FOUR_MASKS {
        if words[o + c] > ALL_AXES {
            return false;
        }
    }
    true
}

fn all_masks_fit(words: &[u32], n: usize) -> bool
    requires { n * words_width ≤ length words.now }
    ensures { result ≡ all 0 n (masks_fit words.now) }
{
    for j in 0..n {
        if !masks_fit(words, j) {
            return false;
        }
    }
    true
}

// Of the masks that a call brings (request R-10).
pub fn new_masks_fit(masks: Masks) -> bool
    ensures { result ≡ new_masks_fit masks }
{
    if masks.locked_axes > ALL_AXES {
        return false;
    }
    if masks.limit_axes > ALL_AXES {
        return false;
    }
    if masks.motor_axes > ALL_AXES {
        return false;
    }
    if masks.coupled_axes > ALL_AXES {
        return false;
    }
    true
}

// ---- rule 6

pub fn finite_pose(p: Pose) -> bool
    ensures { result ≡ finite_pose p }
{
    is_finite(p.rotation.re)
        && is_finite(p.rotation.im)
        && is_finite(p.translation.x)
        && is_finite(p.translation.y)
}

// Of a joint whose numbers start at place o, the ends of its limits, and its motors.
pub fn limit_ends(s: &[f32], o: usize) -> bool
    requires { o + numbers_width ≤ length s.now }
    ensures { result ≡ passes_from (thrice limit_asks) s.now (o + limits_place) }
{
    no_nan_from(s, o + LIMITS_X, 2)
        && no_nan_from(s, o + LIMITS_Y, 2)
        && no_nan_from(s, o + LIMITS_ANGULAR, 2)
}

pub fn finite_motors(s: &[f32], o: usize) -> bool
    requires { o + numbers_width ≤ length s.now }
    ensures { result ≡ passes_from (thrice motor_asks) s.now (o + motors_place) }
{
    finite_motor(s, o + MOTOR_X)
        && finite_motor(s, o + MOTOR_Y)
        && finite_motor(s, o + MOTOR_ANGULAR)
}

fn both_finite(a: f32, b: f32) -> bool
    ensures { result ≡ (is_finite a && is_finite b) }
{
    is_finite(a) && is_finite(b)
}

pub fn finite_center(center: LimitCenter) -> bool
    ensures { result ≡ finite_center center }
{
    match center {
        LimitCenter::CosineSine(re, im) => both_finite(re, im),
        LimitCenter::Angle(angle) => is_finite(angle),
    }
}

// ---- rule 12

pub fn angle_fits(center: LimitCenter) -> bool
    ensures { result ≡ angle_fits center }
{
    match center {
        LimitCenter::CosineSine(_, _) => true,
        LimitCenter::Angle(angle) => !angle_too_large(angle),
    }
}

fn all_centers_fit(words: &[u32], numbers: &[f32], n: usize) -> bool
    requires words_width_in_bounds { n * words_width ≤ length words.now }
    requires numbers_width_in_bounds { n * numbers_width ≤ length numbers.now }
    ensures { result ≡ all 0 n (center_fits words.now numbers.now) }
{
    for j in 0..n {
        if !angle_fits(center_at(words, numbers, j)) {
            return false;
        }
    }
    true
}

// ---- the rules in order

// Rules 3 to 5.
fn joints_refusal(bodies: &[f32], words: &[u32], n: usize) -> Result<(), Refusal>
    requires { n * words_width ≤ length words.now }
    ensures { refused_number result ≡ refusal (joint_rules bodies.now words.now n) }
{
    if !all_masks_fit(words, n) {
        return Err(Refusal::MaskOutOfRange);
    }
    if !all_bodies_present::<Plane>(bodies, words, n) {
        return Err(Refusal::NoSuchBody);
    }
    if !all_bodies_apart::<Plane>(words, n) {
        return Err(Refusal::SameBodies);
    }
    Ok(())
}

// The first of rules 1 to 6, 12 and 7 that fails. `finite`: the settings and the call's own numbers are. Settings are handed over one by one: a struct of them would be put together just
// to be copied.
fn first_refusal(
    dt: f32,
    finite: bool,
    bodies: &[f32],
    words: &[u32],
    numbers: &[f32],
) -> Result<(), Refusal>
    ensures { (header : Header) (arguments : Bool) → dt ≡ header.params.dt → finite ≡ (finite_params header.params && arguments) → refused_number result ≡ refusal (model_rules planar (model_of header bodies.now words.now numbers.now) arguments) }
{
    let n = body_count::<Plane>(bodies);
    let joints = joint_count::<Plane>(words, numbers);
    if n > MOST_BODIES {
        return Err(Refusal::TooManyBodies);
    }
    if joints > MOST_JOINTS {
        return Err(Refusal::TooManyJoints);
    }
    joints_refusal(bodies, words, joints)?;
    if !all_finite::<Plane>(finite, bodies, n, words, numbers, joints) {
        return Err(Refusal::NotFinite);
    }
    if !all_centers_fit(words, numbers, joints) {
        return Err(Refusal::AngleTooLarge);
    }
    if dt < 0.0 {
        return Err(Refusal::NegativeDt);
    }
    Ok(())
}

// The first of these rules that fails of a model. `arguments`: the call's own numbers are finite.
pub fn model_refusal(
    header: Header,
    bodies: &[f32],
    words: &[u32],
    numbers: &[f32],
    arguments: bool,
) -> Result<(), Refusal>
    ensures { refused_number result ≡ refusal (model_rules planar (model_of header bodies.now words.now numbers.now) arguments) }
{
    let finite = finite_params(header.params) & arguments;
    first_refusal(header.params.dt, finite, bodies, words, numbers)
}

// The first of these rules that fails where a call brings masks that do not fit (request R-10): rule 3, or one before it.
pub fn unfit_refusal(bodies: &[f32], words: &[u32], numbers: &[f32]) -> Refusal
    ensures { (header : Header) (arguments : Bool) → refusal_number result ≡ refusal (model_rules_with planar (model_of header bodies.now words.now numbers.now) false arguments) }
{
    if body_count::<Plane>(bodies) > MOST_BODIES {
        return Refusal::TooManyBodies;
    }
    if joint_count::<Plane>(words, numbers) > MOST_JOINTS {
        return Refusal::TooManyJoints;
    }
    Refusal::MaskOutOfRange
}

// Rules 1 to 8 and 12, for a call that is handed row storage.
pub fn storage_refusal(
    header: Header,
    bodies: &[f32],
    words: &[u32],
    numbers: &[f32],
    rows: &[f32],
    arguments: bool,
) -> Result<(), Refusal>
    ensures { refused_number result ≡ refusal (model_rules planar (model_of header bodies.now words.now numbers.now) arguments ++ (storage_rule plane (model_of header bodies.now words.now numbers.now) rows.now ∷ [])) }
{
    let finite = finite_params(header.params) & arguments;
    first_refusal(header.params.dt, finite, bodies, words, numbers)?;
    if rows_before::<Plane>(words, joint_count::<Plane>(words, numbers))
        > row_capacity::<Plane>(rows)
    {
        return Err(Refusal::NoRoom);
    }
    Ok(())
}
