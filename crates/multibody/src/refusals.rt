// What document 01's rules 4 to 6 ask of any kind of system.
ghost use Rattle.std.specs.Prelude.{◌≡◌, ◌&&◌, ◌+◌, ◌*◌, ◌≤◌, length, replicate};
ghost use Rattle.std.specs.Float.Ieee.{is_nan};
ghost use Rattle.multibody.specs.Rules.{all};
ghost use Rattle.multibody.specs.Refusals.{present_or_world, bodies_present, bodies_apart, finite_params, finite_warm, finite_body, finite_joint};
ghost use Rattle.multibody.specs.Finite.{passes_from, motor_asks};
ghost use Rattle.multibody.specs.Finite.Asks.{finite, no_nan};

use crate::counts::body_count;
use crate::kind::{Kind, Work};
use floats::scalar::is_finite;
use rows::integration_parameters::IntegrationParameters;

// The number of no body: document 01's world.
pub const WORLD: u32 = 4294967295;

// ---- rules 4 and 5

pub fn present_or_world<K: Kind>(bodies: &[f32], i: u32) -> bool
    ensures { result ≡ present_or_world K.system.store bodies.now i }
{
    i == WORLD || (i as usize) < body_count::<K>(bodies)
}

fn bodies_present<K: Kind>(bodies: &[f32], words: &[u32], j: usize) -> bool
    requires { j * K.system.store.words_width + K.system.store.words_width ≤ length words.now }
    ensures { result ≡ bodies_present K.system.store bodies.now words.now j }
{
    present_or_world::<K>(bodies, K::body1_at(words, j))
        && present_or_world::<K>(bodies, K::body2_at(words, j))
}

pub fn all_bodies_present<K: Kind>(bodies: &[f32], words: &[u32], n: usize) -> bool
    requires { n * K.system.store.words_width ≤ length words.now }
    ensures { result ≡ all 0 n (bodies_present K.system.store bodies.now words.now) }
{
    for j in 0..n {
        if !bodies_present::<K>(bodies, words, j) {
            return false;
        }
    }
    true
}

pub fn all_bodies_apart<K: Kind>(words: &[u32], n: usize) -> bool
    requires { n * K.system.store.words_width ≤ length words.now }
    ensures { result ≡ all 0 n (bodies_apart K.system.store words.now) }
{
    for j in 0..n {
        if K::body1_at(words, j) == K::body2_at(words, j) {
            return false;
        }
    }
    true
}

// ---- rule 6

// n numbers from place o on. No number ends the loop early, so that the machine code has no branch for each of them.
pub fn finite_from(s: &[f32], o: usize, n: usize) -> bool
    requires { o + n ≤ length s.now }
    ensures { result ≡ passes_from (replicate n finite) s.now o }
{
    let mut finite = true;
    for i in 0..n {
        finite &= is_finite(s[o + i]);
    }
    finite
}

// A NaN alone differs from itself.
pub fn is_nan(x: f32) -> bool
    ensures { result ≡ is_nan x }
{
    x != x
}

pub fn no_nan_from(s: &[f32], o: usize, n: usize) -> bool
    requires { o + n ≤ length s.now }
    ensures { result ≡ passes_from (replicate n no_nan) s.now o }
{
    let mut no_nan = true;
    for i in 0..n {
        no_nan &= !is_nan(s[o + i]);
    }
    no_nan
}

pub fn finite_params(p: IntegrationParameters) -> bool
    ensures { result ≡ finite_params p }
{
    is_finite(p.dt) && is_finite(p.length_unit) && is_finite(p.normalized_max_corrective_velocity)
}

pub fn finite_warm(warmstart: Option<f32>) -> bool
    ensures { result ≡ finite_warm warmstart }
{
    match warmstart {
        None => true,
        Some(coeff) => is_finite(coeff),
    }
}

pub fn finite_motor(s: &[f32], o: usize) -> bool
    requires { o + 6 ≤ length s.now }
    ensures { result ≡ passes_from motor_asks s.now o }
{
    finite_from(s, o, 4) && no_nan_from(s, o + 4, 1)
}

fn all_finite_bodies<K: Work>(bodies: &[f32], n: usize) -> bool
    requires { n * K.system.store.body_width ≤ length bodies.now }
    ensures { result ≡ all 0 n (finite_body K.system bodies.now) }
{
    for i in 0..n {
        if !K::finite_body(bodies, i) {
            return false;
        }
    }
    true
}

fn all_finite_joints<K: Work>(words: &[u32], numbers: &[f32], n: usize) -> bool
    requires words_width_in_bounds { n * K.system.store.words_width ≤ length words.now }
    requires numbers_width_in_bounds { n * K.system.store.numbers_width ≤ length numbers.now }
    ensures { result ≡ all 0 n (finite_joint K.system words.now numbers.now) }
{
    for j in 0..n {
        if !K::finite_joint(words, numbers, j) {
            return false;
        }
    }
    true
}

// The whole of rule 6. `finite`: the settings and the call's own numbers are.
pub fn all_finite<K: Work>(
    finite: bool,
    bodies: &[f32],
    n: usize,
    words: &[u32],
    numbers: &[f32],
    joints: usize,
) -> bool
    requires body_width_in_bounds { n * K.system.store.body_width ≤ length bodies.now }
    requires words_width_in_bounds { joints * K.system.store.words_width ≤ length words.now }
    requires numbers_width_in_bounds { joints * K.system.store.numbers_width ≤ length numbers.now }
    ensures { result ≡ (finite && (all 0 n (finite_body K.system bodies.now) && all 0 joints (finite_joint K.system words.now numbers.now))) }
{
    finite && all_finite_bodies::<K>(bodies, n) && all_finite_joints::<K>(words, numbers, joints)
}
